// Start times, as start_time.rs has them. What they need of clocks comes in as a small answer.
ghost use Rattle.std.specs.Prelude.{◌≡◌};
ghost use Rattle.judge.specs.Answer.{told};
ghost use Rattle.times.specs.Starts.{start_faults, shorter_by, delay_of, awaited_of, update_of, try_update_of};

use crate::duration::nanos;
use crate::time::{ClockTime, clock_time_faults};
use judge::{Faults, Refusal, dt_faults, span_faults};

#[derive(Clone, Copy)]
pub enum StartTime {
    Immediate,
    Delayed(u64),
    At(ClockTime),
}

// When a clock time is due: info.rs, `WhenToStart`.
#[derive(Clone, Copy, PartialEq, Eq)]
pub enum When {
    Now,
    Later,
    Never,
}

// A start time after an update, and whether it will never come. Each field says something in every case, so an Option
// would be no plainer.
#[derive(Clone, Copy)]
pub struct Waited {
    pub never: bool,
    pub start: StartTime,
}

pub fn start_faults(s: StartTime) -> Faults
    ensures { result ≡ start_faults s }
{
    match s {
        StartTime::Immediate => Faults::none(),
        StartTime::Delayed(ns) => span_faults(ns),
        StartTime::At(t) => clock_time_faults(t),
    }
}

// What dt leaves of a delay, for whatever waits by one.
pub fn shorter(ns: u64, dt: f64) -> u64
    ensures { result ≡ shorter_by dt ns }
{
    ns.saturating_sub(nanos(dt))
}

// A delay after dt. With nothing left it is Immediate at once: RULES, delay-update.
fn delayed(ns: u64, dt: f64) -> StartTime
    ensures { result ≡ delay_of (shorter_by dt ns) }
{
    let left = shorter(ns, dt);
    if left == 0 {
        return StartTime::Immediate;
    }
    StartTime::Delayed(left)
}

// A clock time once the clocks have said when it is due.
fn awaited(t: ClockTime, when: When) -> Waited
    ensures { result ≡ awaited_of t when }
{
    match when {
        When::Now => Waited {
            never: false,
            start: StartTime::Immediate,
        },
        When::Later => Waited {
            never: false,
            start: StartTime::At(t),
        },
        When::Never => Waited {
            never: true,
            start: StartTime::At(t),
        },
    }
}

// The update of start_time.rs, on any dt. `when` is read where the start is a clock time.
pub fn update(s: StartTime, dt: f64, when: When) -> Waited
    ensures { result ≡ update_of s dt when }
{
    match s {
        StartTime::Immediate => Waited {
            never: false,
            start: StartTime::Immediate,
        },
        StartTime::Delayed(ns) => Waited {
            never: false,
            start: delayed(ns, dt),
        },
        StartTime::At(t) => awaited(t, when),
    }
}

pub fn try_update(s: StartTime, dt: f64, when: When) -> Result<Waited, Refusal>
    ensures { told result ≡ try_update_of s dt when }
{
    dt_faults(dt).and(start_faults(s)).accept()?;
    Ok(update(s, dt, when))
}
