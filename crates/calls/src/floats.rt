// The calls f.*: a double in, a double out.
ghost use Rattle.std.specs.Prelude.{◌≡◌};
ghost use Rattle.calls.specs.Calls.{answered, double_of, floats_of};

use digits::Out;
use judge::Refusal;
use names::DoubleCall;
use text::words::Words;

fn double(call: DoubleCall, x: f64) -> f64
    ensures { result ≡ double_of call x }
{
    match call {
        DoubleCall::Trunc => doubles::whole(x),
        DoubleCall::Fract => doubles::fract(x),
        DoubleCall::Ceil => doubles::ceil(x),
        DoubleCall::Abs => doubles::abs(x),
        DoubleCall::Clamp => doubles::clamp01(x),
    }
}

#[tactic(auto, unfolding(crate::specs::Calls::floats_of))]
pub fn call(mut words: Words<'_>, call: DoubleCall, out: &mut Out) -> Option<()>
    ensures { record { told = result; out = out.new } ≡ answered out.old (floats_of words.entry.line.now words.entry.at call) }
{
    let x = grammar::float(&mut words)?;
    grammar::end(&words)?;
    answers::reply(out, Ok::<f64, Refusal>(double(call, x)));
    Some(())
}
