// Values and mappings, as value.rs has them, of what can be tweened: f64 and speeds.
ghost use Rattle.std.specs.Prelude.{◌≡◌};
ghost use Rattle.judge.specs.Answer.{told};
ghost use Rattle.values.specs.Values.{amount_of, map_of, mapping_faults, value_faults, try_map_of, made_of, op_faults, map_output_of, try_map_output_of, try_value_output_of, raw_of, range_faults, value_output_of};

use crate::tweenable::Tweenable;
use judge::{Faults, Refusal, float_faults};
use times::tween::{Easing, apply, ease_faults};

// A type of its own beside `ClockId`, so that one cannot be given for the other.
#[derive(Clone, Copy, PartialEq, Eq)]
pub struct ModulatorId {
    pub slot: u32,
    pub generation: u32,
}

// From a modulator's value to one of T. Either range may count down: RULES, reversed-range.
#[derive(Clone, Copy)]
pub struct Mapping<T> {
    pub in_lo: f64,
    pub in_hi: f64,
    pub out_lo: T,
    pub out_hi: T,
    pub easing: Easing,
}

#[derive(Clone, Copy)]
pub enum Value<T> {
    Fixed(T),
    FromModulator(ModulatorId, Mapping<T>),
}

// What is done to both output ends. No closure: the operand is judged too (`op_faults`), so a call says which.
#[derive(Clone, Copy)]
pub enum Op {
    Add(f64),
    Sub(f64),
    Mul(f64),
    Div(f64),
    Rem(f64),
    Neg,
}

impl<T: Tweenable> Mapping<T> {
    // How far an input has come from one end of the input range to the other, within 0..1, eased.
    #[tactic(auto, unfolding(crate::specs::Values::amount_of))]
    fn amount(self, x: f64) -> f64
        ensures { result ≡ amount_of self.in_lo self.in_hi self.easing x }
    {
        let come = (x - self.in_lo) / (self.in_hi - self.in_lo);
        apply(self.easing, doubles::clamp01(come))
    }

    #[tactic(auto, unfolding(crate::specs::Values::map_of))]
    pub fn map(self, x: f64) -> T
        ensures { result ≡ map_of T.tweens self x }
    {
        T::interpolate(self.out_lo, self.out_hi, self.amount(x))
    }

    // What is wrong with the input range and the easing.
    fn range_faults(self) -> Faults
        ensures { result ≡ range_faults self.in_lo self.in_hi self.easing }
    {
        let mut f = Faults::none();
        f.map = self.in_lo == self.in_hi;
        f.and(ease_faults(self.easing))
            .and(float_faults(self.in_lo).and(float_faults(self.in_hi)))
    }

    pub fn faults(self) -> Faults
        ensures { result ≡ mapping_faults T.tweens self }
    {
        let ends = T::end_faults(self.out_lo, self.out_hi);
        self.range_faults().and(ends)
    }

    #[tactic(auto, using(judge::proofs::Judged::passed_up, judge::proofs::Judged::goes_on), unfolding(crate::specs::Values::try_map_of))]
    pub fn try_map(self, x: f64) -> Result<T, Refusal>
        ensures { told result ≡ try_map_of T.tweens self x }
    {
        self.faults().and(float_faults(x)).accept()?;
        Ok(self.map(x))
    }
}

impl<T: Tweenable> Value<T> {
    // A linked value is none where its modulator does not live, and so shows no input.
    pub fn raw(self, input: Option<f64>) -> Option<T>
        ensures { result ≡ raw_of T.tweens self input }
    {
        match self {
            Value::Fixed(x) => Some(x),
            Value::FromModulator(_, m) => Some(m.map(input?)),
        }
    }

    pub fn faults(self) -> Faults
        ensures { result ≡ value_faults T.tweens self }
    {
        match self {
            Value::Fixed(x) => x.faults(),
            Value::FromModulator(_, m) => m.faults(),
        }
    }
}

impl Op {
    // What the operation makes of one end.
    fn made(self, x: f64) -> f64
        ensures { result ≡ made_of self x }
    {
        match self {
            Op::Add(y) => x + y,
            Op::Sub(y) => x - y,
            Op::Mul(y) => x * y,
            Op::Div(y) => x / y,
            Op::Rem(y) => doubles::remainder(x, y),
            Op::Neg => -x,
        }
    }

    fn faults(self) -> Faults
        ensures { result ≡ op_faults self }
    {
        match self {
            Op::Add(y) | Op::Sub(y) | Op::Mul(y) | Op::Div(y) | Op::Rem(y) => float_faults(y),
            Op::Neg => Faults::none(),
        }
    }
}

// The mapping with both output ends made anew.
fn map_output(m: Mapping<f64>, op: Op) -> Mapping<f64>
    ensures { result ≡ map_output_of m op }
{
    Mapping {
        out_lo: op.made(m.out_lo),
        out_hi: op.made(m.out_hi),
        ..m
    }
}

// Judged before and after: an end made so is refused as an argument is.
#[tactic(auto, using(judge::proofs::Judged::passed_up, judge::proofs::Judged::goes_on), unfolding(crate::specs::Values::try_map_output_of))]
pub fn try_map_output(m: Mapping<f64>, op: Op) -> Result<Mapping<f64>, Refusal>
    ensures { told result ≡ try_map_output_of m op }
{
    let to = map_output(m, op);
    m.faults().and(op.faults()).and(to.faults()).accept()?;
    Ok(to)
}

// A value with the operation done to it, or to both output ends of its mapping.
fn value_output(v: Value<f64>, op: Op) -> Value<f64>
    ensures { result ≡ value_output_of v op }
{
    match v {
        Value::Fixed(x) => Value::Fixed(op.made(x)),
        Value::FromModulator(id, m) => Value::FromModulator(id, map_output(m, op)),
    }
}

#[tactic(auto, using(judge::proofs::Judged::passed_up, judge::proofs::Judged::goes_on), unfolding(crate::specs::Values::try_value_output_of))]
pub fn try_value_output(v: Value<f64>, op: Op) -> Result<Value<f64>, Refusal>
    ensures { told result ≡ try_value_output_of v op }
{
    let to = value_output(v, op);
    v.faults().and(op.faults()).and(to.faults()).accept()?;
    Ok(to)
}
