// The calls on the clocks as values.
ghost use Rattle.std.specs.Prelude.{◌≡◌};
ghost use Rattle.commands.specs.Answers.{left};
ghost use Rattle.commands.specs.ClockCommands.{run_clock_of};

use crate::CallAnswer;
use clock_table::Clocks;
use judge::Refusal;
use times::time::ClockId;
use times::tween::Tween;
use values::clock_speed::ClockSpeed;
use values::value::Value;

// A call as a value, and no closure: a run is a list of calls, and the theorems on runs speak of `after_all`, which
// goes over such lists.
#[derive(Clone, Copy)]
pub enum ClockCommand {
    Add(Value<ClockSpeed>),
    Remove(ClockId),
    Start(ClockId),
    Stop(ClockId),
    Reset(ClockId),
    SetSpeed(ClockId, Value<ClockSpeed>, Tween),
    Time(ClockId),
    Ticking(ClockId),
    Speed(ClockId),
}

#[tactic(auto, using(judge::proofs::Judged::never_zero_number), unfolding(crate::specs::ClockCommands::run_clock_of))]
pub fn run_clock(t: &mut Clocks, c: ClockCommand) -> Result<CallAnswer, Refusal>
    ensures { left result t.new ≡ run_clock_of t.old c }
{
    match c {
        ClockCommand::Add(v) => return Ok(CallAnswer::Clock(t.add(v)?)),
        ClockCommand::Remove(id) => t.remove(id)?,
        ClockCommand::Start(id) => t.start(id)?,
        ClockCommand::Stop(id) => t.stop(id)?,
        ClockCommand::Reset(id) => t.reset(id)?,
        ClockCommand::SetSpeed(id, v, w) => t.set_speed(id, v, w)?,
        ClockCommand::Time(id) => return Ok(CallAnswer::Time(t.time(id)?)),
        ClockCommand::Ticking(id) => return Ok(CallAnswer::Flag(t.ticking(id)?)),
        ClockCommand::Speed(id) => return Ok(CallAnswer::Speed(t.speed(id)?)),
    }
    Ok(CallAnswer::Done)
}
