// The calls clock.*, as commands.
ghost use Rattle.std.specs.Prelude.{◌≡◌};
ghost use Rattle.lines.specs.ClockLines.{add_line, set_speed_line, command_of, by_id_line};

use crate::things::tween;
use commands::clock_command::ClockCommand;
use names::OneClock;
use text::words::Words;
use times::time::ClockId;

// The call clock.add, behind its name.
#[tactic(auto, unfolding(crate::specs::ClockLines::add_line))]
pub fn add_line(mut words: Words<'_>) -> Option<ClockCommand>
    ensures { result ≡ add_line words.entry.line.now words.entry.at }
{
    let command = ClockCommand::Add(grammar::value(&mut words)?);
    grammar::ended(&words).then_some(command)
}

// The call clock.speed, behind its name.
#[tactic(auto, unfolding(crate::specs::ClockLines::set_speed_line))]
pub fn set_speed_line(mut words: Words<'_>) -> Option<ClockCommand>
    ensures { result ≡ set_speed_line words.entry.line.now words.entry.at }
{
    let (slot, generation) = grammar::id(&mut words)?;
    let id = ClockId { slot, generation };
    let command = ClockCommand::SetSpeed(id, grammar::value(&mut words)?, tween(&mut words)?);
    grammar::ended(&words).then_some(command)
}

// The command that a call on one clock is.
fn command(call: OneClock, id: ClockId) -> ClockCommand
    ensures { result ≡ command_of call id }
{
    match call {
        OneClock::Drop => ClockCommand::Remove(id),
        OneClock::Start => ClockCommand::Start(id),
        OneClock::Stop => ClockCommand::Stop(id),
        OneClock::Reset => ClockCommand::Reset(id),
        OneClock::Time => ClockCommand::Time(id),
        OneClock::Ticking => ClockCommand::Ticking(id),
        OneClock::GetSpeed => ClockCommand::Speed(id),
    }
}

// The calls that take an id and nothing else, behind their names.
#[tactic(auto, unfolding(crate::specs::ClockLines::by_id_line))]
pub fn by_id_line(mut words: Words<'_>, call: OneClock) -> Option<ClockCommand>
    ensures { result ≡ by_id_line words.entry.line.now words.entry.at call }
{
    let (slot, generation) = grammar::id(&mut words)?;
    let id = ClockId { slot, generation };
    grammar::ended(&words).then_some(command(call, id))
}
