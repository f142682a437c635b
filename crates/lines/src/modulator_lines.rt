// The calls tweener.*, lfo.*, mod.value and mod.drop, as commands.
ghost use Rattle.std.specs.Prelude.{◌≡◌};
ghost use Rattle.lines.specs.ModulatorLines.{add_tweener_line, add_lfo_line, set_tweener_line, set_parameter_line, set_waveform_line, set_phase_line, read_line, one_line, by_id_line};

use crate::things::tween;
use commands::modulator_command::ModulatorCommand;
use modulator::lfo::{LfoBuilder, LfoParameter};
use names::OneModulator;
use text::words::Words;
use values::value::ModulatorId;

// The call tweener.add, behind its name.
#[tactic(auto, unfolding(crate::specs::ModulatorLines::add_tweener_line))]
pub fn add_tweener_line(mut words: Words<'_>) -> Option<ModulatorCommand>
    ensures { result ≡ add_tweener_line words.entry.line.now words.entry.at }
{
    let command = ModulatorCommand::AddTweener(grammar::float(&mut words)?);
    grammar::ended(&words).then_some(command)
}

// The call lfo.add, behind its name.
#[tactic(auto, unfolding(crate::specs::ModulatorLines::add_lfo_line))]
pub fn add_lfo_line(mut words: Words<'_>) -> Option<ModulatorCommand>
    ensures { result ≡ add_lfo_line words.entry.line.now words.entry.at }
{
    let lfo = LfoBuilder {
        waveform: grammar::wave(&mut words)?,
        frequency: grammar::value(&mut words)?,
        amplitude: grammar::value(&mut words)?,
        offset: grammar::value(&mut words)?,
        starting_phase: grammar::float(&mut words)?,
    };
    grammar::ended(&words).then_some(ModulatorCommand::AddLfo(lfo))
}

#[tactic(auto, unfolding(crate::specs::ModulatorLines::set_tweener_line))]
fn set_tweener(mut words: Words<'_>, id: ModulatorId) -> Option<ModulatorCommand>
    ensures { result ≡ set_tweener_line words.entry.line.now words.entry.at id }
{
    let command = ModulatorCommand::SetTweener(id, grammar::float(&mut words)?, tween(&mut words)?);
    grammar::ended(&words).then_some(command)
}

#[tactic(auto, unfolding(crate::specs::ModulatorLines::set_parameter_line))]
fn set_parameter(
    mut words: Words<'_>,
    id: ModulatorId,
    which: LfoParameter,
) -> Option<ModulatorCommand>
    ensures { result ≡ set_parameter_line words.entry.line.now words.entry.at id which }
{
    let v = grammar::value(&mut words)?;
    let t = tween(&mut words)?;
    grammar::ended(&words).then_some(ModulatorCommand::SetParameter(id, which, v, t))
}

#[tactic(auto, unfolding(crate::specs::ModulatorLines::set_waveform_line))]
fn set_waveform(mut words: Words<'_>, id: ModulatorId) -> Option<ModulatorCommand>
    ensures { result ≡ set_waveform_line words.entry.line.now words.entry.at id }
{
    let command = ModulatorCommand::SetWaveform(id, grammar::wave(&mut words)?);
    grammar::ended(&words).then_some(command)
}

#[tactic(auto, unfolding(crate::specs::ModulatorLines::set_phase_line))]
fn set_phase(mut words: Words<'_>, id: ModulatorId) -> Option<ModulatorCommand>
    ensures { result ≡ set_phase_line words.entry.line.now words.entry.at id }
{
    let command = ModulatorCommand::SetPhase(id, grammar::float(&mut words)?);
    grammar::ended(&words).then_some(command)
}

// A call that takes an id and nothing else, as the command that it is.
#[tactic(auto, unfolding(crate::specs::ModulatorLines::read_line))]
fn read(words: Words<'_>, command: ModulatorCommand) -> Option<ModulatorCommand>
    ensures { result ≡ read_line words.entry.line.now words.entry.at command }
{
    grammar::ended(&words).then_some(command)
}

// The calls whose first argument is an id, behind it.
#[tactic(auto, unfolding(crate::specs::ModulatorLines::one_line))]
fn one(words: Words<'_>, call: OneModulator, id: ModulatorId) -> Option<ModulatorCommand>
    ensures { result ≡ one_line words.entry.line.now words.entry.at call id }
{
    match call {
        OneModulator::Set => set_tweener(words, id),
        OneModulator::Freq => set_parameter(words, id, LfoParameter::Frequency),
        OneModulator::Amp => set_parameter(words, id, LfoParameter::Amplitude),
        OneModulator::Off => set_parameter(words, id, LfoParameter::Offset),
        OneModulator::Wave => set_waveform(words, id),
        OneModulator::Phase => set_phase(words, id),
        OneModulator::Value => read(words, ModulatorCommand::Value(id)),
        OneModulator::Drop => read(words, ModulatorCommand::Remove(id)),
    }
}

// The same, behind their names.
#[tactic(auto, unfolding(crate::specs::ModulatorLines::by_id_line))]
pub fn by_id_line(mut words: Words<'_>, call: OneModulator) -> Option<ModulatorCommand>
    ensures { result ≡ by_id_line words.entry.line.now words.entry.at call }
{
    let (slot, generation) = grammar::id(&mut words)?;
    one(words, call, ModulatorId { slot, generation })
}
