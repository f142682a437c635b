// The calls that read a speed in a unit: speed.spt, speed.tps and speed.tpm.
ghost use Rattle.std.specs.Prelude.{◌≡◌};
ghost use Rattle.judge.specs.Answer.{told};
ghost use Rattle.calls.specs.Calls.{answered, unit_of, speeds_of};

use digits::Out;
use judge::Refusal;
use names::SpeedCall;
use text::words::Words;
use values::clock_speed::ClockSpeed;

fn unit(call: SpeedCall, s: ClockSpeed) -> Result<f64, Refusal>
    ensures { told result ≡ unit_of call s }
{
    match call {
        SpeedCall::Spt => s.try_as_seconds_per_tick(),
        SpeedCall::Tps => s.try_as_ticks_per_second(),
        SpeedCall::Tpm => s.try_as_ticks_per_minute(),
    }
}

#[tactic(auto, unfolding(crate::specs::Calls::speeds_of))]
pub fn call(mut words: Words<'_>, call: SpeedCall, out: &mut Out) -> Option<()>
    ensures { record { told = result; out = out.new } ≡ answered out.old (speeds_of words.entry.line.now words.entry.at call) }
{
    let s = grammar::speed(&mut words)?;
    grammar::end(&words)?;
    answers::reply(out, unit(call, s));
    Some(())
}
