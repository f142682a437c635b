// The rate that a clock ticks at, as clock/clock_speed.rs has it.
ghost use Rattle.std.specs.Prelude.{◌≡◌, eqb};
ghost use Rattle.judge.specs.Answer.{told};
ghost use Rattle.values.specs.Speeds.{spt_of, tps_of, tpm_of, try_spt_of, try_tps_of, try_tpm_of, read_in_of, in_range, unit_of, speed_tweens};

use crate::tweenable::Tweenable;
use judge::{Faults, Refusal};

#[derive(Clone, Copy)]
pub enum ClockSpeed {
    SecondsPerTick(f64),
    TicksPerSecond(f64),
    TicksPerMinute(f64),
}

impl ClockSpeed {
    pub fn as_seconds_per_tick(self) -> f64
        ensures { result ≡ spt_of self }
    {
        match self {
            ClockSpeed::SecondsPerTick(x) => x,
            ClockSpeed::TicksPerSecond(x) => 1.0 / x,
            ClockSpeed::TicksPerMinute(x) => 60.0 / x,
        }
    }

    pub fn as_ticks_per_second(self) -> f64
        ensures { result ≡ tps_of self }
    {
        match self {
            ClockSpeed::SecondsPerTick(x) => 1.0 / x,
            ClockSpeed::TicksPerSecond(x) => x,
            ClockSpeed::TicksPerMinute(x) => x / 60.0,
        }
    }

    pub fn as_ticks_per_minute(self) -> f64
        ensures { result ≡ tpm_of self }
    {
        match self {
            ClockSpeed::SecondsPerTick(x) => 60.0 / x,
            ClockSpeed::TicksPerSecond(x) => x * 60.0,
            ClockSpeed::TicksPerMinute(x) => x,
        }
    }

    // A speed read in the unit of another.
    pub fn read_in(self, unit: ClockSpeed) -> f64
        ensures { result ≡ read_in_of self unit }
    {
        match unit {
            ClockSpeed::SecondsPerTick(_) => self.as_seconds_per_tick(),
            ClockSpeed::TicksPerSecond(_) => self.as_ticks_per_second(),
            ClockSpeed::TicksPerMinute(_) => self.as_ticks_per_minute(),
        }
    }

    #[tactic(auto, using(judge::proofs::Judged::passed_up, judge::proofs::Judged::goes_on), unfolding(crate::specs::Speeds::try_spt_of))]
    pub fn try_as_seconds_per_tick(self) -> Result<f64, Refusal>
        ensures { told result ≡ try_spt_of self }
    {
        self.faults().accept()?;
        Ok(self.as_seconds_per_tick())
    }

    #[tactic(auto, using(judge::proofs::Judged::passed_up, judge::proofs::Judged::goes_on), unfolding(crate::specs::Speeds::try_tps_of))]
    pub fn try_as_ticks_per_second(self) -> Result<f64, Refusal>
        ensures { told result ≡ try_tps_of self }
    {
        self.faults().accept()?;
        Ok(self.as_ticks_per_second())
    }

    #[tactic(auto, using(judge::proofs::Judged::passed_up, judge::proofs::Judged::goes_on), unfolding(crate::specs::Speeds::try_tpm_of))]
    pub fn try_as_ticks_per_minute(self) -> Result<f64, Refusal>
        ensures { told result ≡ try_tpm_of self }
    {
        self.faults().accept()?;
        Ok(self.as_ticks_per_minute())
    }

    fn shares_unit(self, other: ClockSpeed) -> bool
        ensures { result ≡ eqb (unit_of self) (unit_of other) }
    {
        match self {
            ClockSpeed::SecondsPerTick(_) => matches!(other, ClockSpeed::SecondsPerTick(_)),
            ClockSpeed::TicksPerSecond(_) => matches!(other, ClockSpeed::TicksPerSecond(_)),
            ClockSpeed::TicksPerMinute(_) => matches!(other, ClockSpeed::TicksPerMinute(_)),
        }
    }
}

// Whether x lies in 2^-20..2^20.
fn in_range(x: f64) -> bool
    ensures { result ≡ in_range x }
{
    (x >= 0.00000095367431640625) & (x <= 1048576.0)
}

impl Tweenable for ClockSpeed {
    ghost tweens = { speed_tweens };

    // Interpolated in the target's unit.
    #[tactic(auto, unfolding(crate::specs::Speeds::interpolate_speed_of))]
    fn interpolate(a: ClockSpeed, b: ClockSpeed, amount: f64) -> ClockSpeed {
        let start = a.read_in(b);
        match b {
            ClockSpeed::SecondsPerTick(y) => {
                ClockSpeed::SecondsPerTick(f64::interpolate(start, y, amount))
            }
            ClockSpeed::TicksPerSecond(y) => {
                ClockSpeed::TicksPerSecond(f64::interpolate(start, y, amount))
            }
            ClockSpeed::TicksPerMinute(y) => {
                ClockSpeed::TicksPerMinute(f64::interpolate(start, y, amount))
            }
        }
    }

    fn faults(self) -> Faults {
        let mut f = Faults::none();
        f.speed = match self {
            ClockSpeed::SecondsPerTick(x) => !in_range(x),
            ClockSpeed::TicksPerSecond(x) | ClockSpeed::TicksPerMinute(x) => {
                !((x == 0.0) | in_range(x))
            }
        };
        f
    }

    // Two ends of one mapping share a unit.
    fn end_faults(lo: ClockSpeed, hi: ClockSpeed) -> Faults {
        let mut f = lo.faults().and(hi.faults());
        f.speed = f.speed | !lo.shares_unit(hi);
        f
    }

    fn read_faults(self, target: ClockSpeed) -> Faults {
        let x = self.read_in(target);
        let mut f = Faults::none();
        f.speed = !doubles::is_finite(x) | (x > 134217728.0);
        f
    }
}
