// The calls lerp and speed.lerp: a way between two values of one kind.
ghost use Rattle.std.specs.Prelude.{◌≡◌};
ghost use Rattle.calls.specs.Calls.{answered, lerp_of};

use answers::Shown;
use digits::Out;
use grammar::Spelled;
use text::words::Words;
use values::tweenable::try_interpolate;

#[tactic(auto, unfolding(crate::specs::Calls::lerp_of))]
pub fn call<T: Spelled + Shown>(mut words: Words<'_>, out: &mut Out) -> Option<()>
    ensures { record { told = result; out = out.new } ≡ answered out.old (lerp_of T.tweens T.spelled T.text words.entry.line.now words.entry.at) }
{
    let a = T::read(&mut words)?;
    let b = T::read(&mut words)?;
    let amount = grammar::float(&mut words)?;
    grammar::end(&words)?;
    answers::reply(out, try_interpolate(a, b, amount));
    Some(())
}
