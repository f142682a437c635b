// Tweened parameters, as parameter.rs has them: the course of a tween, and parameters of whatever can be tweened
// over it. What a parameter sees of the rest comes in as two small answers, its `Sight`.
#![tactic(auto)]

ghost use Rattle.std.specs.Prelude.{◌≡◌};
ghost use Rattle.judge.specs.Answer.{told};
ghost use Rattle.parameter.specs.Parameters.{fixed_of, first_of, new_of, try_new_of, set_of, set_told, target_faults, target_unit, try_set_of, settled_of, mixed_of, updated, by_step, update_of, advanced_told, try_update_of};

use crate::course::{Course, Stepped};
use judge::{Faults, Refusal, dt_faults};
use times::start_time::When;
use times::tween::{Tween, tween_faults};
use values::tweenable::Tweenable;
use values::value::Value;

pub mod course;

// What a parameter sees of the rest: when its tween's clock time is due, and what its modulator shows, which is none
// where that does not live.
#[derive(Clone, Copy)]
pub struct Sight {
    pub when: When,
    pub input: Option<f64>,
}

// A tween under way: from a value to a target.
#[derive(Clone, Copy)]
pub struct Tweening<T> {
    pub start: T,
    pub target: Value<T>,
    pub course: Course,
}

#[derive(Clone, Copy)]
pub enum State<T> {
    Idle(Value<T>),
    Tweening(Tweening<T>),
}

// `raw` is the present value. A stagnant parameter has nothing to update.
#[derive(Clone, Copy)]
pub struct Parameter<T> {
    pub state: State<T>,
    pub raw: T,
    pub stagnant: bool,
}

fn is_fixed<T: Tweenable>(v: Value<T>) -> bool
    ensures { result ≡ fixed_of v }
{
    matches!(v, Value::Fixed(_))
}

// The value before the first update.
fn first<T: Tweenable>(v: Value<T>, default: T) -> T
    ensures { result ≡ first_of v default }
{
    match v {
        Value::Fixed(x) => x,
        Value::FromModulator(_, _) => default,
    }
}

// A value of the unit that a target has.
fn target_unit<T: Tweenable>(target: Value<T>) -> T
    ensures { result ≡ target_unit target }
{
    match target {
        Value::Fixed(x) => x,
        Value::FromModulator(_, m) => m.out_hi,
    }
}

// What is wrong with a target and a tween.
pub fn target_faults<T: Tweenable>(target: Value<T>, tween: Tween) -> Faults
    ensures { result ≡ target_faults T.tweens target tween }
{
    target.faults().and(tween_faults(tween))
}

impl<T: Tweenable> Parameter<T> {
    // A parameter of any value and default.
    pub fn new(value: Value<T>, default: T) -> Parameter<T>
        ensures { result ≡ new_of value default }
    {
        Parameter {
            state: State::Idle(value),
            raw: first(value, default),
            stagnant: is_fixed(value),
        }
    }

    #[tactic(auto, using(judge::proofs::Judged::passed_up, judge::proofs::Judged::goes_on), unfolding(crate::specs::Parameters::try_new_of))]
    pub fn try_new(value: Value<T>, default: T) -> Result<Parameter<T>, Refusal>
        ensures { told result ≡ try_new_of T.tweens value default }
    {
        value.faults().and(default.faults()).accept()?;
        Ok(Parameter::new(value, default))
    }

    // A tween from the present value to any target.
    pub fn set(&mut self, target: Value<T>, tween: Tween)
        ensures { self.new ≡ set_of self.old target tween }
    {
        self.state = State::Tweening(Tweening {
            start: self.raw,
            target,
            course: Course::begin(tween),
        });
        self.stagnant = false;
    }

    // A refused set leaves the parameter.
    pub fn try_set(&mut self, target: Value<T>, tween: Tween) -> Result<(), Refusal>
        ensures { set_told result self.new ≡ try_set_of T.tweens self.old target tween }
    {
        let readable = self.raw.read_faults(target_unit(target));
        target_faults(target, tween).and(readable).accept()?;
        self.set(target, tween);
        Ok(())
    }

    // A value's present size; the parameter's own where its modulator does not live.
    fn settled(&self, v: Value<T>, input: Option<f64>) -> T
        ensures { result ≡ settled_of T.tweens v input self.now.raw }
    {
        v.raw(input).unwrap_or(self.raw)
    }

    // The value on the way to a target. A tween of no length has none before it ends.
    fn mixed(&self, t: Tweening<T>, input: Option<f64>) -> T
        ensures { result ≡ mixed_of T.tweens t t.course input self.now.raw }
    {
        if t.course.tween.duration == 0 {
            return self.raw;
        }
        match t.target.raw(input) {
            Some(x) => T::interpolate(t.start, x, t.course.amount()),
            None => self.raw,
        }
    }

    // A step of the tween: whether the target is reached. Then the value is the target's own, not an interpolation's.
    fn stepped(&mut self, t: Tweening<T>, step: Stepped, input: Option<f64>) -> bool
        ensures { updated result self.new ≡ by_step T.tweens t step input self.old.raw }
    {
        match step {
            Stepped::Waits(course) | Stepped::Goes(course) => {
                let on = Tweening { course, ..t };
                self.state = State::Tweening(on);
                self.raw = self.mixed(on, input);
                self.stagnant = false;
                false
            }
            Stepped::Ends => {
                self.state = State::Idle(t.target);
                self.raw = self.settled(t.target, input);
                self.stagnant = is_fixed(t.target);
                true
            }
        }
    }

    // One update, on any dt: whether the tween just finished.
    #[tactic(auto, unfolding(crate::specs::Parameters::update_of, crate::specs::Parameters::tweened_of))]
    pub fn update(&mut self, dt: f64, sight: Sight) -> bool
        ensures { updated result self.new ≡ update_of T.tweens self.old dt sight.when sight.input }
    {
        if self.stagnant {
            return false;
        }
        match self.state {
            State::Idle(v) => {
                self.raw = self.settled(v, sight.input);
                self.stagnant = false;
                false
            }
            State::Tweening(t) => self.stepped(t, t.course.step(dt, sight.when), sight.input),
        }
    }

    // A refused update leaves the parameter.
    #[tactic(auto, using(crate::proofs::Left::update_refused, crate::proofs::Left::update_done), unfolding(crate::specs::Parameters::try_update_of))]
    pub fn try_update(&mut self, dt: f64, sight: Sight) -> Result<bool, Refusal>
        ensures { advanced_told result self.new ≡ try_update_of T.tweens self.old dt sight.when sight.input }
    {
        dt_faults(dt).accept()?;
        Ok(self.update(dt, sight))
    }
}
