// What the cases run on: 16 clocks and 16 modulators, 8 tweeners under way and 8 LFOs. oracle/src/speed.rs makes the
// same of the original's types, so that both give the same answers.
use clock::Clock;
use clock_table::Clocks;
use ids::Key;
use modulator::lfo::Lfo;
use modulator::tweener::Tweener;
use modulator_table::{Modulator, Modulators, Slot};
use parameter::Parameter;
use times::start_time::StartTime;
use times::time::{ClockId, from_ticks_u64};
use times::tween::{Easing, Tween};
use values::clock_speed::ClockSpeed;
use values::value::{Mapping, ModulatorId, Value};
use waveform::Waveform;

// An id for each kind, of its own type: one function would be no plainer than the two.
fn clock_id(slot: u32) -> ClockId {
    ClockId {
        slot,
        generation: 1,
    }
}

fn modulator_id(slot: u32) -> ModulatorId {
    ModulatorId {
        slot,
        generation: 1,
    }
}

// A number for a slot.
fn size(i: u32) -> f64 {
    match i & 7 {
        0 => 0.5,
        1 => 1.25,
        2 => 2.0,
        3 => 3.75,
        4 => 0.1,
        5 => 0.7,
        6 => 5.5,
        _ => 7.3,
    }
}

// Powers of 1 and 2 alone: those are the same in both programs, bit for bit.
fn easing(i: u32) -> Easing {
    match i & 3 {
        0 => Easing::Linear,
        1 => Easing::InPowi(2),
        2 => Easing::OutPowi(2),
        _ => Easing::InOutPowi(2),
    }
}

// A tween that no run comes to the end of. Half of them ask a clock, not their own, for their start, at every update.
fn tween(i: u32) -> Tween {
    if i & 1 == 0 {
        return Tween {
            start_time: StartTime::Immediate,
            duration: 80_000_000_000_000,
            easing: easing(i),
        };
    }
    Tween {
        start_time: StartTime::At(from_ticks_u64(clock_id(i ^ 1), 0)),
        duration: 80_000_000_000_000,
        easing: easing(i),
    }
}

// A speed for a slot.
fn fixed_speed(i: u32) -> ClockSpeed {
    match i & 3 {
        0 => ClockSpeed::TicksPerSecond(8.0),
        1 => ClockSpeed::TicksPerMinute(300.0),
        2 => ClockSpeed::SecondsPerTick(0.125),
        _ => ClockSpeed::TicksPerSecond(0.75),
    }
}

// Slots 8 to 11 are linked to tweeners, the others fixed.
fn speed(i: u32) -> Value<ClockSpeed> {
    if i & 12 == 8 {
        return Value::FromModulator(
            modulator_id(i & 3),
            Mapping {
                in_lo: 0.0,
                in_hi: 8.0,
                out_lo: ClockSpeed::TicksPerSecond(1.0),
                out_hi: ClockSpeed::TicksPerSecond(32.0),
                easing: easing(i),
            },
        );
    }
    Value::Fixed(fixed_speed(i))
}

// The speed that a clock goes to.
fn new_speed(i: u32) -> Value<ClockSpeed> {
    Value::Fixed(ClockSpeed::TicksPerMinute(size(i) * 120.0))
}

// Sixteen living clocks.
fn living(clocks: [Clock; 16]) -> Clocks {
    Clocks {
        keys: [Key::taken(1); 16],
        clocks,
    }
}

// A clock's speed is set to a new one.
pub fn retune(t: &mut Clocks, i: u32) {
    let _ = t.set_speed(clock_id(i), new_speed(i), tween(i));
}

// A clock that ticks.
fn ticking(speed: Value<ClockSpeed>) -> Clock {
    let mut c = Clock::new(speed);
    c.set_ticking(true);
    c
}

// Sixteen clocks that tick: 8 with a fixed speed, 4 linked, 4 with a speed under way to another.
pub fn clocks() -> Clocks {
    let mut table = living([ticking(speed(0)); 16]);
    // By the slot's number, since a speed and a modulator are made of it.
    for i in 1..16 {
        table.clocks[i as usize] = ticking(speed(i));
    }
    for i in 12..16 {
        retune(&mut table, i);
    }
    table
}

// Sixteen clocks of which one ticks, as fast as a frame of a second allows.
pub fn one_fast() -> Clocks {
    let fast = Value::Fixed(ClockSpeed::TicksPerSecond(65536.0));
    let mut table = living([Clock::new(fast); 16]);
    table.clocks[5] = ticking(fast);
    table
}

// A value that is fixed, or linked to a modulator.
fn value(i: u32, linked: bool, slot: u32, fixed: f64) -> Value<f64> {
    if linked {
        let mapping = Mapping {
            in_lo: 0.0,
            in_hi: 8.0,
            out_lo: 0.5,
            out_hi: size(i),
            easing: easing(i),
        };
        return Value::FromModulator(modulator_id(slot), mapping);
    }
    Value::Fixed(fixed)
}

// A waveform for a slot.
fn waveform(i: u32) -> Waveform {
    match i & 3 {
        0 => Waveform::Triangle,
        1 => Waveform::Saw,
        2 => Waveform::Pulse(0.3),
        _ => Waveform::Triangle,
    }
}

// A parameter on its way from 0.5 to 1,000, begun by the time of a clock.
pub fn parameter() -> Parameter<f64> {
    let mut p = Parameter::new(Value::Fixed(0.5), 0.0);
    let _ = p.try_set(Value::Fixed(1000.0), tween(3));
    p
}

// An LFO with its amplitude under way. Every other frequency is linked to a tweener, and every fourth offset to an
// LFO before it.
fn lfo(i: u32) -> Lfo {
    Lfo {
        waveform: waveform(i),
        frequency: Parameter::new(value(i, i & 1 == 1, i & 7, size(i)), 2.0),
        amplitude: parameter(),
        offset: Parameter::new(value(i, i & 3 == 3, 8, 0.25), 0.0),
        phase: 0.0,
        value: 0.0,
    }
}

// The modulator of a slot: of 16, 8 are tweeners under way and 8 are LFOs.
fn modulator(i: u32) -> Modulator {
    if i < 8 {
        let mut t = Tweener::new(size(i));
        t.set(size(i ^ 3), tween(i));
        return Modulator::OfTweener(t);
    }
    Modulator::OfLfo(lfo(i))
}

pub fn modulators() -> Modulators {
    let slot = Slot {
        modulator: modulator(0),
    };
    let mut slots = [slot; 16];
    for i in 1..16 {
        slots[i as usize].modulator = modulator(i);
    }
    Modulators {
        keys: [Key::taken(1); 16],
        slots,
    }
}
