// Clock times, as clock/time.rs has them, but for a double that is subtracted: document 02, Req 01.
ghost use Rattle.std.specs.Prelude.{◌≡◌, true, false, ◌<◌};
ghost use Rattle.std.specs.Float.Ieee.{lt};
ghost use Rattle.doubles.specs.Doubles.{zero_f, sign_of};
ghost use Rattle.judge.specs.Answer.{told};
ghost use Rattle.times.specs.Times.{time_at, clock_time_faults, borrowing, from_ticks_of, try_from_float_of, try_add_ticks_of, try_sub_ticks_of, later_of, earlier_of, try_add_float_of, try_sub_float_of, order_of, is_less, try_order_of};

use judge::{Faults, Refusal, float_faults, fraction_faults};
use std::cmp::Ordering;
use ticks::more_ticks;

// Ids of clocks and of modulators are two types, so that one cannot be given for the other; `find` of the crate `ids`
// takes what both have.
#[derive(Clone, Copy, PartialEq, Eq)]
pub struct ClockId {
    pub slot: u32,
    pub generation: u32,
}

// An instant of a clock: whole ticks, and a fraction of one.
#[derive(Clone, Copy)]
pub struct ClockTime {
    pub clock: ClockId,
    pub ticks: u64,
    pub fraction: f64,
}

// A clock time. It is made here and nowhere else.
pub fn time_at(clock: ClockId, ticks: u64, fraction: f64) -> ClockTime
    ensures { result ≡ time_at clock ticks fraction }
{
    ClockTime {
        clock,
        ticks,
        fraction,
    }
}

// What is wrong with a clock time, wherever one is given.
pub fn clock_time_faults(t: ClockTime) -> Faults
    ensures { result ≡ clock_time_faults t }
{
    fraction_faults(t.fraction)
}

pub fn from_ticks_u64(clock: ClockId, ticks: u64) -> ClockTime
    ensures { result ≡ from_ticks_of clock ticks }
{
    time_at(clock, ticks, 0.0)
}

pub fn try_from_ticks_f64(clock: ClockId, x: f64) -> Result<ClockTime, Refusal>
    ensures { told result ≡ try_from_float_of clock x }
{
    let mut sign = Faults::none();
    sign.time = doubles::sign_bit(x);
    float_faults(x).and(sign).accept()?;
    Ok(time_at(clock, doubles::to_u64(x), doubles::fract(x)))
}

pub fn try_add_u64(t: ClockTime, n: u64) -> Result<ClockTime, Refusal>
    ensures { told result ≡ try_add_ticks_of t n }
{
    clock_time_faults(t).accept()?;
    let ticks = more_ticks(t.ticks, n)?;
    Ok(time_at(t.clock, ticks, t.fraction))
}

pub fn try_sub_u64(t: ClockTime, n: u64) -> Result<ClockTime, Refusal>
    ensures { told result ≡ try_sub_ticks_of t n }
{
    clock_time_faults(t).accept()?;
    let ticks = t.ticks.checked_sub(n).ok_or(Refusal::BeforeZero)?;
    Ok(time_at(t.clock, ticks, t.fraction))
}

// t later by an amount with no minus sign.
fn later(t: ClockTime, x: f64) -> Result<ClockTime, Refusal>
    ensures { told result ≡ later_of t x }
{
    float_faults(x).and(clock_time_faults(t)).accept()?;
    let s = t.fraction + x;
    let ticks = more_ticks(t.ticks, doubles::to_u64(doubles::whole(s)))?;
    Ok(time_at(t.clock, ticks, doubles::fract(s)))
}

// Whether t comes before u.
fn is_less(t: ClockTime, u: ClockTime) -> bool
    ensures { result ≡ is_less (order_of t u) }
{
    partial_cmp(t, u) == Some(Ordering::Less)
}

// A time of so many ticks, and a fraction that may be negative: then it borrows a tick. A fraction so little
// below 0 that with the tick it rounds to a whole one gives the tick back.
fn borrowing(clock: ClockId, ticks: u64, d: f64) -> ClockTime
    requires { lt d zero_f ≡ true → 0 < ticks }
    ensures { result ≡ borrowing clock ticks d }
{
    if d < 0.0 {
        let e = d + 1.0;
        if e == 1.0 {
            return time_at(clock, ticks, 0.0);
        }
        return time_at(clock, ticks - 1, e);
    }
    time_at(clock, ticks, d)
}

// t earlier by an amount with no minus sign.
fn earlier(t: ClockTime, x: f64) -> Result<ClockTime, Refusal>
    requires { sign_of x ≡ false }
    ensures { told result ≡ earlier_of t x }
{
    float_faults(x).and(clock_time_faults(t)).accept()?;
    let w = doubles::to_u64(doubles::whole(x));
    let r = doubles::fract(x);
    if is_less(t, time_at(t.clock, w, r)) {
        return Err(Refusal::BeforeZero);
    }
    Ok(borrowing(t.clock, t.ticks - w, t.fraction - r))
}

// t later by x ticks: for a negative x, earlier by its opposite.
#[cycle(try_add_f64_try_sub_f64)]
pub fn try_add_f64(t: ClockTime, x: f64) -> Result<ClockTime, Refusal>
    ensures { told result ≡ try_add_float_of t x }
{
    if doubles::sign_bit(x) {
        return try_sub_f64(t, -x);
    }
    later(t, x)
}

// t earlier by x ticks: for a negative x, later by its opposite.
#[cycle(try_add_f64_try_sub_f64)]
pub fn try_sub_f64(t: ClockTime, x: f64) -> Result<ClockTime, Refusal>
    ensures { told result ≡ try_sub_float_of t x }
{
    if doubles::sign_bit(x) {
        return try_add_f64(t, -x);
    }
    earlier(t, x)
}

// The order of two times, on any fractions. Times of different clocks have none, nor has a fraction that is a NaN.
// A function beside its `try_` form: PartialOrd would be no plainer, with the laws of an order that no caller uses.
pub fn partial_cmp(a: ClockTime, b: ClockTime) -> Option<Ordering>
    ensures { result ≡ order_of a b }
{
    if a.clock != b.clock {
        return None;
    }
    if a.ticks != b.ticks {
        return a.ticks.partial_cmp(&b.ticks);
    }
    a.fraction.partial_cmp(&b.fraction)
}

pub fn try_partial_cmp(a: ClockTime, b: ClockTime) -> Result<Option<Ordering>, Refusal>
    ensures { told result ≡ try_order_of a b }
{
    clock_time_faults(a).and(clock_time_faults(b)).accept()?;
    Ok(partial_cmp(a, b))
}
