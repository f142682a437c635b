// What is seen of all clocks and modulators, and the questions that are put to it.
ghost use Rattle.std.specs.Prelude.{◌≡◌};
ghost use Rattle.judge.specs.Answer.{told};
ghost use Rattle.info.specs.Infos.{reached_of, due_of, when_to_start_of, modulator_value_of, start_due_of, input_of, try_when_to_start_of, try_update_start_in, try_raw_in};

use clock::ClockInfo;
use ids::{Key, find};
use judge::Refusal;
use std::cmp::Ordering;
use times::start_time::{StartTime, Waited, When, try_update};
use times::time::{ClockTime, clock_time_faults, partial_cmp, time_at};
use values::tweenable::Tweenable;
use values::value::{ModulatorId, Value};

// Whether a clock's time is at or past a time of it.
fn reached(c: ClockInfo, t: ClockTime) -> bool
    ensures { result ≡ reached_of c t }
{
    partial_cmp(time_at(t.clock, c.ticks, c.fraction), t).is_some_and(Ordering::is_ge)
}

// When a time of a clock that lives is due.
fn clock_due(c: ClockInfo, t: ClockTime) -> When
    ensures { result ≡ due_of c t }
{
    if c.ticking && reached(c, t) {
        When::Now
    } else {
        When::Later
    }
}

// A key and what is seen for each slot, of clocks and of modulators. The keys stand apart, as the definitions have
// them, which may not change: `find` and `find_of` read a list of keys.
#[derive(Clone, Copy)]
pub struct Info {
    pub clock_keys: [Key; 16],
    pub clocks: [ClockInfo; 16],
    pub modulator_keys: [Key; 16],
    pub values: [f64; 16],
}

impl Info {
    // When any clock time is due.
    #[tactic(auto, using(ids::proofs::Places::found_inside, ids::proofs::Places::read_at_lem), unfolding(crate::specs::Infos::when_to_start_of))]
    pub fn when_to_start(&self, t: ClockTime) -> When
        ensures { result ≡ when_to_start_of self.now t }
    {
        match find(&self.clock_keys, t.clock.slot, t.clock.generation) {
            Ok(i) => clock_due(self.clocks[i], t),
            Err(_) => When::Never,
        }
    }

    #[tactic(auto, using(ids::proofs::Places::found_inside, ids::proofs::Places::read_at_lem), unfolding(crate::specs::Infos::modulator_value_of))]
    pub fn modulator_value(&self, id: ModulatorId) -> Option<f64>
        ensures { result ≡ modulator_value_of self.now id }
    {
        let i = find(&self.modulator_keys, id.slot, id.generation).ok()?;
        Some(self.values[i])
    }

    // When a start's clock time is due. A start with no clock does not ask.
    pub fn start_due(&self, start: StartTime) -> When
        ensures { result ≡ start_due_of self.now start }
    {
        match start {
            StartTime::Immediate | StartTime::Delayed(_) => When::Later,
            StartTime::At(t) => self.when_to_start(t),
        }
    }

    // What the modulator of a value shows. A fixed value has none.
    pub fn input<T: Tweenable>(&self, v: Value<T>) -> Option<f64>
        ensures { result ≡ input_of self.now v }
    {
        match v {
            Value::Fixed(_) => None,
            Value::FromModulator(id, _) => self.modulator_value(id),
        }
    }

    #[tactic(auto, using(judge::proofs::Judged::passed_up, judge::proofs::Judged::goes_on), unfolding(crate::specs::Infos::try_when_to_start_of))]
    pub fn try_when_to_start(&self, t: ClockTime) -> Result<When, Refusal>
        ensures { told result ≡ try_when_to_start_of self.now t }
    {
        clock_time_faults(t).accept()?;
        Ok(self.when_to_start(t))
    }

    #[tactic(auto, using(judge::proofs::Judged::passed_up, judge::proofs::Judged::goes_on), unfolding(crate::specs::Infos::try_raw_in))]
    pub fn try_raw<T: Tweenable>(&self, v: Value<T>) -> Result<Option<T>, Refusal>
        ensures { told result ≡ try_raw_in T.tweens self.now v }
    {
        v.faults().accept()?;
        Ok(v.raw(self.input(v)))
    }

    // A start time after dt, with the clocks as they stand.
    pub fn try_update_start(&self, start: StartTime, dt: f64) -> Result<Waited, Refusal>
        ensures { told result ≡ try_update_start_in self.now start dt }
    {
        try_update(start, dt, self.start_due(start))
    }
}
