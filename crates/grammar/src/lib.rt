// The grammar of docs/BENCH.md: each function reads one thing off the front of a line's words and leaves those
// behind it, or none where the thing does not stand there. No function has a `requires`: each takes any words.
#![tactic(auto)]

ghost use Rattle.std.specs.Prelude.{◌≡◌, ℕ, List, Option};
ghost use Rattle.std.specs.Bool.{then_some};
ghost use Rattle.text.specs.Words.{same_bytes, read_of};
ghost use Rattle.grammar.specs.Grammar.{ended_at, float_at, number_at, decimal32_of, power_at, id_in, id_at, id_behind, id_left_by, speed_at, ease_at, time_at, clock_time_at, delay_at, start_at, mapping_at, value_at, wave_at};

use text::words::Words;
use times::start_time::StartTime;
use times::time::{ClockId, ClockTime, time_at};
use times::tween::Easing;
use values::clock_speed::ClockSpeed;
use values::tweenable::Tweenable;
use values::value::{Mapping, ModulatorId, Value};
use waveform::Waveform;

// What a mapping's ends can be: how one is written in a line.
pub trait Spelled: Tweenable {
    ghost spelled: { List ℕ → ℕ → Option (Self × ℕ) };

    fn read(words: &mut Words<'_>) -> Option<Self>
        ensures { (result, words.new) ≡ read_of spelled words.old };
}

impl Spelled for f64 {
    ghost spelled = { float_at };

    fn read(words: &mut Words<'_>) -> Option<f64> {
        float(words)
    }
}

impl Spelled for ClockSpeed {
    ghost spelled = { speed_at };

    fn read(words: &mut Words<'_>) -> Option<ClockSpeed> {
        speed(words)
    }
}

// Whether nothing but blanks is left.
pub fn ended(words: &Words<'_>) -> bool
    ensures { result ≡ ended_at words.now.line.now words.now.at }
{
    let w = text::next_word(words.line, words.at);
    w.from == w.to
}

// The end of a line: nothing but blanks is left.
pub fn end(words: &Words<'_>) -> Option<()>
    ensures { result ≡ then_some (ended_at words.now.line.now words.now.at) tt }
{
    ended(words).then_some(())
}

// Whether a word is the one named. `==` by itself does not take the two, since a name is an array.
pub fn is(word: &[u8], name: &[u8]) -> bool
    ensures { result ≡ same_bytes word.now name.now }
{
    word == name
}

// A double, by its bits: F.
#[tactic(auto, unfolding(crate::specs::Grammar::first_word, crate::specs::Grammar::float_at))]
pub fn float(words: &mut Words<'_>) -> Option<f64>
    ensures { (result, words.new) ≡ read_of float_at words.old }
{
    match text::hex16(words.next()) {
        Some(bits) => Some(doubles::of_bits(bits)),
        None => words.stop(),
    }
}

// A number, or a time in nanoseconds: N, NS.
#[tactic(auto, unfolding(crate::specs::Grammar::first_word, crate::specs::Grammar::number_at))]
pub fn number(words: &mut Words<'_>) -> Option<u64>
    ensures { (result, words.new) ≡ read_of number_at words.old }
{
    match text::decimal(words.next()) {
        Some(n) => Some(n),
        None => words.stop(),
    }
}

// The number of up to 32 bits that decimal digits spell.
#[tactic(auto, unfolding(crate::specs::Grammar::decimal32_of))]
fn decimal32(s: &[u8]) -> Option<u32>
    ensures { result ≡ decimal32_of s.now }
{
    u32::try_from(text::decimal(s)?).ok()
}

// The power of an easing: N of up to 32 bits.
#[tactic(auto, unfolding(crate::specs::Grammar::first_word, crate::specs::Grammar::power_at))]
fn power(words: &mut Words<'_>) -> Option<u32>
    ensures { (result, words.new) ≡ read_of power_at words.old }
{
    match decimal32(words.next()) {
        Some(n) => Some(n),
        None => words.stop(),
    }
}

// The two numbers that a word has before and behind its first colon.
fn id_in(word: &[u8]) -> Option<(u32, u32)>
    ensures { (to : ℕ) → id_behind result to ≡ id_in word.now to }
{
    let i = word.iter().position(|&b| b == b':')?;
    Some((decimal32(&word[..i])?, decimal32(&word[i + 1..])?))
}

// The id of a clock or of a modulator, which are written alike: ID.
#[tactic(auto, unfolding(crate::specs::Grammar::first_word, crate::specs::Grammar::id_at))]
pub fn id(words: &mut Words<'_>) -> Option<(u32, u32)>
    ensures { (result, words.new) ≡ id_left_by words.old (id_at words.old.line.now words.old.at) }
{
    match id_in(words.next()) {
        Some(numbers) => Some(numbers),
        None => words.stop(),
    }
}

// A unit and a number: SPEED.
#[tactic(auto, unfolding(crate::specs::Grammar::first_word, crate::specs::Grammar::speed_at))]
pub fn speed(words: &mut Words<'_>) -> Option<ClockSpeed>
    ensures { (result, words.new) ≡ read_of speed_at words.old }
{
    let unit = words.next();
    let x = float(words)?;
    if is(unit, b"spt") {
        return Some(ClockSpeed::SecondsPerTick(x));
    }
    if is(unit, b"tps") {
        return Some(ClockSpeed::TicksPerSecond(x));
    }
    if is(unit, b"tpm") {
        return Some(ClockSpeed::TicksPerMinute(x));
    }
    words.stop()
}

// A kind of easing, and its power: EASE.
#[tactic(auto, unfolding(crate::specs::Grammar::first_word, crate::specs::Grammar::ease_at))]
pub fn ease(words: &mut Words<'_>) -> Option<Easing>
    ensures { (result, words.new) ≡ read_of ease_at words.old }
{
    let kind = words.next();
    if is(kind, b"lin") {
        return Some(Easing::Linear);
    }
    let n = power(words)?;
    if is(kind, b"in") {
        return Some(Easing::InPowi(n));
    }
    if is(kind, b"out") {
        return Some(Easing::OutPowi(n));
    }
    if is(kind, b"io") {
        return Some(Easing::InOutPowi(n));
    }
    words.stop()
}

// A time of a clock: N F.
#[tactic(auto, unfolding(crate::specs::Grammar::time_at))]
pub fn time(words: &mut Words<'_>, clock: ClockId) -> Option<ClockTime>
    ensures { (result, words.new) ≡ read_of (λ s at. time_at s at clock) words.old }
{
    Some(time_at(clock, number(words)?, float(words)?))
}

// A clock and a time of it: ID N F.
#[tactic(auto, unfolding(crate::specs::Grammar::clock_time_at))]
pub fn clock_time(words: &mut Words<'_>) -> Option<ClockTime>
    ensures { (result, words.new) ≡ read_of clock_time_at words.old }
{
    let (slot, generation) = id(words)?;
    time(words, ClockId { slot, generation })
}

// What stands behind `del`: NS.
#[tactic(auto, unfolding(crate::specs::Grammar::delay_at))]
fn delay(words: &mut Words<'_>) -> Option<StartTime>
    ensures { (result, words.new) ≡ read_of delay_at words.old }
{
    Some(StartTime::Delayed(number(words)?))
}

// When a tween starts: START.
#[tactic(auto, unfolding(crate::specs::Grammar::first_word, crate::specs::Grammar::start_at))]
pub fn start(words: &mut Words<'_>) -> Option<StartTime>
    ensures { (result, words.new) ≡ read_of start_at words.old }
{
    let kind = words.next();
    if is(kind, b"imm") {
        return Some(StartTime::Immediate);
    }
    if is(kind, b"del") {
        return delay(words);
    }
    if is(kind, b"clk") {
        return Some(StartTime::At(clock_time(words)?));
    }
    words.stop()
}

// A mapping to doubles or to speeds: FMAP, SMAP.
#[tactic(auto, unfolding(crate::specs::Grammar::mapping_at))]
pub fn mapping<T: Spelled>(words: &mut Words<'_>) -> Option<Mapping<T>>
    ensures { (result, words.new) ≡ read_of (mapping_at T.spelled) words.old }
{
    Some(Mapping {
        in_lo: float(words)?,
        in_hi: float(words)?,
        out_lo: T::read(words)?,
        out_hi: T::read(words)?,
        easing: ease(words)?,
    })
}

// A double or a speed that is fixed or a modulator's: FVAL, SVAL.
#[tactic(auto, unfolding(crate::specs::Grammar::first_word, crate::specs::Grammar::value_at))]
pub fn value<T: Spelled>(words: &mut Words<'_>) -> Option<Value<T>>
    ensures { (result, words.new) ≡ read_of (value_at T.spelled) words.old }
{
    let kind = words.next();
    if is(kind, b"fix") {
        return Some(Value::Fixed(T::read(words)?));
    }
    if !is(kind, b"mod") {
        return words.stop();
    }
    let (slot, generation) = id(words)?;
    let id = ModulatorId { slot, generation };
    Some(Value::FromModulator(id, mapping(words)?))
}

// A waveform: WAVE.
#[tactic(auto, unfolding(crate::specs::Grammar::first_word, crate::specs::Grammar::wave_at))]
pub fn wave(words: &mut Words<'_>) -> Option<Waveform>
    ensures { (result, words.new) ≡ read_of wave_at words.old }
{
    let kind = words.next();
    if is(kind, b"tri") {
        return Some(Waveform::Triangle);
    }
    if is(kind, b"saw") {
        return Some(Waveform::Saw);
    }
    if is(kind, b"pul") {
        return Some(Waveform::Pulse(float(words)?));
    }
    words.stop()
}
