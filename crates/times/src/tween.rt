// Easings and tweens, as tween.rs has them.
ghost use Rattle.std.specs.Prelude.{◌≡◌};
ghost use Rattle.judge.specs.Answer.{told};
ghost use Rattle.times.specs.Easings.{power_of, in_out_of, apply_of, bad_power, ease_faults, tween_faults, try_apply_of, tween_value_of, default_tween};

use crate::duration::as_secs_f64;
use crate::start_time::{StartTime, start_faults};
use judge::{Faults, Refusal, float_faults, span_faults};

#[derive(Clone, Copy)]
pub enum Easing {
    Linear,
    InPowi(u32),
    OutPowi(u32),
    InOutPowi(u32),
}

#[derive(Clone, Copy)]
pub struct Tween {
    pub start_time: StartTime,
    pub duration: u64,
    pub easing: Easing,
}

// The product of n factors x, from left to right; 1.0 for none.
pub fn power(x: f64, n: u32) -> f64
    ensures { result ≡ power_of x n }
{
    if n == 0 {
        return 1.0;
    }
    let mut p = x;
    for _ in 1..n {
        p = p * x;
    }
    p
}

// Slow, fast, slow.
fn in_out(x: f64, n: u32) -> f64
    ensures { result ≡ in_out_of x n }
{
    let y = 2.0 * x;
    if y < 1.0 {
        return 0.5 * power(y, n);
    }
    0.5 * (1.0 - power(2.0 - y, n)) + 0.5
}

// The eased amount, for any amount and any power.
pub fn apply(e: Easing, x: f64) -> f64
    ensures { result ≡ apply_of e x }
{
    match e {
        Easing::Linear => x,
        Easing::InPowi(n) => power(x, n),
        Easing::OutPowi(n) => 1.0 - power(1.0 - x, n),
        Easing::InOutPowi(n) => in_out(x, n),
    }
}

// BAD_EASE, for a power below 1 or above 16: RULES, bad-ease.
fn bad_power(n: u32) -> bool
    ensures { result ≡ bad_power n }
{
    (n < 1) | (n > 16)
}

// A flag by cases, and no plainer as one `matches!`: `bad_power` asks the three powers.
pub fn ease_faults(e: Easing) -> Faults
    ensures { result ≡ ease_faults e }
{
    Faults {
        ease: match e {
            Easing::Linear => false,
            Easing::InPowi(n) | Easing::OutPowi(n) | Easing::InOutPowi(n) => bad_power(n),
        },
        ..Faults::none()
    }
}

pub fn tween_faults(t: Tween) -> Faults
    ensures { result ≡ tween_faults t }
{
    start_faults(t.start_time)
        .and(span_faults(t.duration))
        .and(ease_faults(t.easing))
}

pub fn try_apply(e: Easing, x: f64) -> Result<f64, Refusal>
    ensures { told result ≡ try_apply_of e x }
{
    ease_faults(e).and(float_faults(x)).accept()?;
    Ok(apply(e, x))
}

// How far a tween has come at a time of its own, eased.
pub fn tween_value(t: Tween, time: f64) -> f64
    ensures { result ≡ tween_value_of t time }
{
    apply(t.easing, time / as_secs_f64(t.duration))
}

// The tween of a caller that names none.
pub fn default_tween() -> Tween
    ensures { result ≡ default_tween }
{
    Tween {
        start_time: StartTime::Immediate,
        duration: 10_000_000,
        easing: Easing::Linear,
    }
}
