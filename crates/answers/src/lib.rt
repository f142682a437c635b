// Answers as text: each function puts the text of a thing into a buffer that the caller lends. No function has a
// `requires`. No `Display`: each statement (`put_in`) says what comes of every piece in a buffer that is too short for
// the text, and what may not change is that a piece which does not fit is left out.
#![tactic(auto)]

ghost use Rattle.std.specs.Prelude.{◌≡◌, List, ℕ};
ghost use Rattle.judge.specs.Answer.{number_of_refusal};
ghost use Rattle.answers.specs.Answers.{float_pieces, speed_text, ease_text, time_text, id_text, start_text, float_map_text, float_value_text, refused_text, reply_text, itself, told_by};
ghost use Rattle.digits.specs.Outs.{put_in};
ghost use Rattle.digits.specs.Puts.{line_of};

use digits::Out;
use judge::Refusal;
use times::start_time::StartTime;
use times::time::ClockTime;
use times::tween::Easing;
use values::clock_speed::ClockSpeed;
use values::value::{Mapping, Value};

// A value that a call answers with.
pub trait Shown: Copy {
    ghost text: { Self → List (List ℕ) };

    fn show(self, out: &mut Out)
        ensures { out.new ≡ put_in out.old (text self) };
}

impl Shown for f64 {
    ghost text = { float_pieces };

    fn show(self, out: &mut Out) {
        out.float(self);
    }
}

impl Shown for ClockSpeed {
    ghost text = { speed_text };

    fn show(self, out: &mut Out) {
        speed(out, self);
    }
}

impl Shown for ClockTime {
    ghost text = { time_text };

    fn show(self, out: &mut Out) {
        time(out, self);
    }
}

impl Shown for Mapping<f64> {
    ghost text = { float_map_text };

    fn show(self, out: &mut Out) {
        float_map(out, self);
    }
}

impl Shown for Value<f64> {
    ghost text = { float_value_text };

    fn show(self, out: &mut Out) {
        float_value(out, self);
    }
}

// What refuses a call, by its number: a `Refusal`, or any number, since each has its text.
pub trait Numbered: Copy {
    ghost number: { Self → ℕ };

    fn number(self) -> u32
        ensures { result ≡ number self };
}

impl Numbered for Refusal {
    ghost number = { number_of_refusal };

    fn number(self) -> u32 {
        u32::from(self)
    }
}

impl Numbered for u32 {
    ghost number = { itself };

    fn number(self) -> u32 {
        self
    }
}

pub fn speed(out: &mut Out, s: ClockSpeed)
    ensures { out.new ≡ put_in out.old (speed_text s) }
{
    match s {
        ClockSpeed::SecondsPerTick(x) => out.named(b"spt ", x),
        ClockSpeed::TicksPerSecond(x) => out.named(b"tps ", x),
        ClockSpeed::TicksPerMinute(x) => out.named(b"tpm ", x),
    }
}

pub fn ease(out: &mut Out, e: Easing)
    ensures { out.new ≡ put_in out.old (ease_text e) }
{
    match e {
        Easing::Linear => out.put(b"lin"),
        Easing::InPowi(n) => out.counted(b"in ", n as u64),
        Easing::OutPowi(n) => out.counted(b"out ", n as u64),
        Easing::InOutPowi(n) => out.counted(b"io ", n as u64),
    }
}

// Whole ticks, and the fraction of one.
pub fn time(out: &mut Out, t: ClockTime)
    ensures { out.new ≡ put_in out.old (time_text t) }
{
    out.number(t.ticks);
    out.named(b" ", t.fraction);
}

// A slot, and its generation.
pub fn id(out: &mut Out, slot: u32, generation: u32)
    ensures { out.new ≡ put_in out.old (id_text slot generation) }
{
    out.number(slot as u64);
    out.counted(b":", generation as u64);
}

pub fn start(out: &mut Out, s: StartTime)
    ensures { out.new ≡ put_in out.old (start_text s) }
{
    match s {
        StartTime::Immediate => out.put(b"imm"),
        StartTime::Delayed(ns) => out.counted(b"del ", ns),
        StartTime::At(t) => {
            out.put(b"clk ");
            id(out, t.clock.slot, t.clock.generation);
            out.put(b" ");
            time(out, t);
        }
    }
}

pub fn float_map(out: &mut Out, m: Mapping<f64>)
    ensures { out.new ≡ put_in out.old (float_map_text m) }
{
    out.float(m.in_lo);
    out.named(b" ", m.in_hi);
    out.named(b" ", m.out_lo);
    out.named(b" ", m.out_hi);
    out.put(b" ");
    ease(out, m.easing);
}

pub fn float_value(out: &mut Out, v: Value<f64>)
    ensures { out.new ≡ put_in out.old (float_value_text v) }
{
    match v {
        Value::Fixed(x) => out.named(b"fix ", x),
        Value::FromModulator(i, m) => {
            out.put(b"mod ");
            id(out, i.slot, i.generation);
            out.put(b" ");
            float_map(out, m);
        }
    }
}

// A whole answer: a refusal by its number, whichever it is, since each has its text.
pub fn refused_by(out: &mut Out, n: u32)
    ensures { out.new ≡ put_in out.old (line_of (refused_text n)) }
{
    out.counted(b"refused ", u64::from(n));
    out.end();
}

// A whole answer: a refusal.
pub fn refused<R: Numbered>(out: &mut Out, r: R)
    ensures { out.new ≡ put_in out.old (line_of (refused_text (R.number r))) }
{
    refused_by(out, r.number());
}

// A whole answer: a value, or a refusal.
pub fn reply<T: Shown, R: Numbered>(out: &mut Out, r: Result<T, R>)
    ensures { out.new ≡ put_in out.old (line_of (reply_text T.text (told_by R.number r))) }
{
    match r {
        Ok(x) => {
            x.show(out);
            out.end();
        }
        Err(e) => refused(out, e),
    }
}
