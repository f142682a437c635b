// An LFO, as modulator/lfo.rs has it.
ghost use Rattle.std.specs.Prelude.{◌≡◌};
ghost use Rattle.modulator.specs.Lfos.{turns_of, new_lfo, builder_faults, parameter_of, with_parameter_of, parameter_by, with_wave_of, with_phase_of, update_lfo_of};

use judge::{Faults, float_faults};
use parameter::{Parameter, Sight};
use times::tween::Tween;
use values::value::Value;
use waveform::{Waveform, wave_faults, wave_value};

// What an LFO is made from. The starting phase is in radians.
#[derive(Clone, Copy)]
pub struct LfoBuilder {
    pub waveform: Waveform,
    pub frequency: Value<f64>,
    pub amplitude: Value<f64>,
    pub offset: Value<f64>,
    pub starting_phase: f64,
}

impl LfoBuilder {
    pub fn faults(self) -> Faults
        ensures { result ≡ builder_faults self }
    {
        wave_faults(self.waveform)
            .and(float_faults(self.starting_phase))
            .and(
                self.frequency
                    .faults()
                    .and(self.amplitude.faults().and(self.offset.faults())),
            )
    }
}

// Which of an LFO's parameters is meant. A value, since a call on the table hands it on behind the id.
#[derive(Clone, Copy)]
pub enum LfoParameter {
    Frequency,
    Amplitude,
    Offset,
}

// What an LFO's three parameters see.
#[derive(Clone, Copy)]
pub struct LfoSight {
    pub frequency: Sight,
    pub amplitude: Sight,
    pub offset: Sight,
}

// Radians in turns.
fn turns(radians: f64) -> f64
    ensures { result ≡ turns_of radians }
{
    radians / 6.283185307179586
}

// `phase` is in turns.
#[derive(Clone, Copy)]
pub struct Lfo {
    pub waveform: Waveform,
    pub frequency: Parameter<f64>,
    pub amplitude: Parameter<f64>,
    pub offset: Parameter<f64>,
    pub phase: f64,
    pub value: f64,
}

impl Lfo {
    // It shows 0 before it is updated: RULES, lfo.
    pub fn new(b: LfoBuilder) -> Lfo
        ensures { result ≡ new_lfo b }
    {
        Lfo {
            waveform: b.waveform,
            frequency: Parameter::new(b.frequency, 2.0),
            amplitude: Parameter::new(b.amplitude, 1.0),
            offset: Parameter::new(b.offset, 0.0),
            phase: turns(b.starting_phase),
            value: 0.0,
        }
    }

    pub fn parameter(&self, which: LfoParameter) -> Parameter<f64>
        ensures { result ≡ parameter_of self.now which }
    {
        match which {
            LfoParameter::Frequency => self.frequency,
            LfoParameter::Amplitude => self.amplitude,
            LfoParameter::Offset => self.offset,
        }
    }

    pub fn put_parameter(&mut self, which: LfoParameter, p: Parameter<f64>)
        ensures { self.new ≡ with_parameter_of which p self.old }
    {
        match which {
            LfoParameter::Frequency => self.frequency = p,
            LfoParameter::Amplitude => self.amplitude = p,
            LfoParameter::Offset => self.offset = p,
        }
    }

    // A tween of one of the parameters: RULES, lfo-set.
    pub fn set_parameter(&mut self, which: LfoParameter, target: Value<f64>, tween: Tween)
        ensures { self.new ≡ parameter_by self.old which target tween }
    {
        match which {
            LfoParameter::Frequency => self.frequency.set(target, tween),
            LfoParameter::Amplitude => self.amplitude.set(target, tween),
            LfoParameter::Offset => self.offset.set(target, tween),
        }
    }

    pub fn set_waveform(&mut self, waveform: Waveform)
        ensures { self.new ≡ with_wave_of waveform self.old }
    {
        self.waveform = waveform;
    }

    pub fn set_phase(&mut self, radians: f64)
        ensures { self.new ≡ with_phase_of radians self.old }
    {
        self.phase = turns(radians);
    }

    // The parameters first, then the phase, then the value: RULES, lfo-update.
    #[tactic(auto, unfolding(crate::specs::Lfos::update_lfo_of))]
    pub fn update(&mut self, dt: f64, sight: LfoSight)
        ensures { self.new ≡ update_lfo_of self.old dt sight }
    {
        self.frequency.update(dt, sight.frequency);
        self.amplitude.update(dt, sight.amplitude);
        self.offset.update(dt, sight.offset);
        self.phase = doubles::remainder(self.phase + dt * self.frequency.raw, 1.0);
        self.value = self.offset.raw + self.amplitude.raw * wave_value(self.waveform, self.phase);
    }
}
