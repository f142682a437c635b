// What can be tweened, and interpolation, as tween/tweenable.rs has them.
ghost use Rattle.std.specs.Prelude.{◌≡◌};
ghost use Rattle.judge.specs.Answer.{told};
ghost use Rattle.values.specs.Tweenables.{Tweens, float_tweens, try_interpolate_of};

use judge::{Faults, Refusal, float_faults};

// What values, mappings and parameters ask of what they hold.
pub trait Tweenable: Copy {
    ghost tweens: { Tweens Self };

    fn interpolate(a: Self, b: Self, amount: f64) -> Self
        ensures { result ≡ tweens.between a b amount };

    fn faults(self) -> Faults
        ensures { result ≡ tweens.wrong self };

    // Of a mapping's two outputs.
    fn end_faults(lo: Self, hi: Self) -> Faults
        ensures { result ≡ tweens.wrong_ends lo hi };

    // Of a start or a present value that is read in a target's unit.
    fn read_faults(self, target: Self) -> Faults
        ensures { result ≡ tweens.unreadable self target };
}

impl Tweenable for f64 {
    ghost tweens = { float_tweens };

    // Rounding can miss b at amount 1.0: RULES, interpolation.
    fn interpolate(a: f64, b: f64, amount: f64) -> f64 {
        a + (b - a) * amount
    }

    fn faults(self) -> Faults {
        float_faults(self)
    }

    fn end_faults(lo: f64, hi: f64) -> Faults {
        float_faults(lo).and(float_faults(hi))
    }

    // A double has no unit.
    fn read_faults(self, _target: f64) -> Faults {
        Faults::none()
    }
}

#[tactic(auto, using(judge::proofs::Judged::passed_up, judge::proofs::Judged::goes_on), unfolding(crate::specs::Tweenables::try_interpolate_of))]
pub fn try_interpolate<T: Tweenable>(a: T, b: T, amount: f64) -> Result<T, Refusal>
    ensures { told result ≡ try_interpolate_of T.tweens a b amount }
{
    let ends = a.faults().and(b.faults()).and(a.read_faults(b));
    ends.and(float_faults(amount)).accept()?;
    Ok(T::interpolate(a, b, amount))
}
