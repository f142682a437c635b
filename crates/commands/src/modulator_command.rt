// The calls on the modulators as values.
ghost use Rattle.std.specs.Prelude.{◌≡◌};
ghost use Rattle.commands.specs.Answers.{left};
ghost use Rattle.commands.specs.ModulatorCommands.{run_modulator_of};

use crate::CallAnswer;
use judge::Refusal;
use modulator::lfo::{LfoBuilder, LfoParameter};
use modulator_table::Modulators;
use times::tween::Tween;
use values::value::{ModulatorId, Value};
use waveform::Waveform;

// A call as a value, as `ClockCommand` is.
#[derive(Clone, Copy)]
pub enum ModulatorCommand {
    AddTweener(f64),
    AddLfo(LfoBuilder),
    Remove(ModulatorId),
    SetTweener(ModulatorId, f64, Tween),
    SetParameter(ModulatorId, LfoParameter, Value<f64>, Tween),
    SetWaveform(ModulatorId, Waveform),
    SetPhase(ModulatorId, f64),
    Value(ModulatorId),
}

#[tactic(auto, using(judge::proofs::Judged::never_zero_number), unfolding(crate::specs::ModulatorCommands::run_modulator_of))]
pub fn run_modulator(t: &mut Modulators, c: ModulatorCommand) -> Result<CallAnswer, Refusal>
    ensures { left result t.new ≡ run_modulator_of t.old c }
{
    match c {
        ModulatorCommand::AddTweener(x) => return Ok(CallAnswer::Modulator(t.add_tweener(x)?)),
        ModulatorCommand::AddLfo(b) => return Ok(CallAnswer::Modulator(t.add_lfo(b)?)),
        ModulatorCommand::Remove(id) => t.remove(id)?,
        ModulatorCommand::SetTweener(id, x, w) => t.set_tweener(id, x, w)?,
        ModulatorCommand::SetParameter(id, k, v, w) => t.set_parameter(id, k, v, w)?,
        ModulatorCommand::SetWaveform(id, w) => t.set_waveform(id, w)?,
        ModulatorCommand::SetPhase(id, x) => t.set_phase(id, x)?,
        ModulatorCommand::Value(id) => return Ok(CallAnswer::Value(t.value(id)?)),
    }
    Ok(CallAnswer::Done)
}
