// Waveforms, as modulator/lfo.rs has them, but for its sine: RULES, scope.
#![tactic(auto)]

ghost use Rattle.std.specs.Prelude.{◌≡◌};
ghost use Rattle.judge.specs.Answer.{told};
ghost use Rattle.waveform.specs.Waves.{pulse_of, wave_value_of, wave_faults, try_wave_value_of};

use judge::{Faults, Refusal, float_faults};

#[derive(Clone, Copy)]
pub enum Waveform {
    Triangle,
    Saw,
    Pulse(f64),
}

// The wave at any phase. A negative one leads out of -1..1: RULES, negative-phase.
pub fn wave_value(w: Waveform, phase: f64) -> f64
    ensures { result ≡ wave_value_of w phase }
{
    match w {
        Waveform::Triangle => doubles::abs(doubles::fract(phase + 0.75) - 0.5) * 4.0 - 1.0,
        Waveform::Saw => doubles::fract(phase + 0.5) * 2.0 - 1.0,
        Waveform::Pulse(width) => pulse(width, phase),
    }
}

fn pulse(width: f64, phase: f64) -> f64
    ensures { result ≡ pulse_of width phase }
{
    if phase < width {
        return 1.0;
    }
    -1.0
}

// A pulse's width is judged as any float.
pub fn wave_faults(w: Waveform) -> Faults
    ensures { result ≡ wave_faults w }
{
    match w {
        Waveform::Triangle | Waveform::Saw => Faults::none(),
        Waveform::Pulse(width) => float_faults(width),
    }
}

pub fn try_wave_value(w: Waveform, phase: f64) -> Result<f64, Refusal>
    ensures { told result ≡ try_wave_value_of w phase }
{
    wave_faults(w).and(float_faults(phase)).accept()?;
    Ok(wave_value(w, phase))
}
