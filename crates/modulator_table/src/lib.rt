// The table of modulators, and the calls on it: by an id, or adding one. A slot holds one of two kinds.

#![tactic(auto)]

ghost use Rattle.std.specs.Prelude.{◌≡◌};
ghost use Rattle.judge.specs.Answer.{told};
ghost use Rattle.ids.specs.Tables.{done, added};
ghost use Rattle.modulator_table.specs.ModulatorTables.{slot_value, no_modulators, put_of, add_tweener_of, add_lfo_of, remove_of, set_tweener_of, set_parameter_of, set_waveform_of, set_phase_of, modulator_value_of};

use ids::{Key, find, free};
use judge::{Faults, Refusal, float_faults};
use modulator::lfo::{Lfo, LfoBuilder, LfoParameter};
use modulator::tweener::{Tweener, tweener_faults};
use parameter::target_faults;
use times::tween::Tween;
use values::value::{ModulatorId, Value};
use waveform::{Waveform, wave_faults};

#[derive(Clone, Copy)]
pub enum Modulator {
    OfTweener(Tweener),
    OfLfo(Lfo),
}

// A struct of one field, since the definitions of a frame and of the table (`frame_of`, `put_of`) are of slots.
#[derive(Clone, Copy)]
pub struct Slot {
    pub modulator: Modulator,
}

impl Slot {
    // The value that a slot shows.
    pub fn value(&self) -> f64
        ensures { result ≡ slot_value self.now }
    {
        match &self.modulator {
            Modulator::OfTweener(t) => t.value,
            Modulator::OfLfo(l) => l.value,
        }
    }
}

// A key and a modulator for each slot. What a slot that is not used holds is not read. Keys stand apart, as those of
// the clocks do.
#[derive(Clone, Copy)]
pub struct Modulators {
    pub keys: [Key; 16],
    pub slots: [Slot; 16],
}

// A call that is refused leaves the table as it was.
impl Modulators {
    pub fn new() -> Modulators
        ensures { result ≡ no_modulators }
    {
        let rest = Slot {
            modulator: Modulator::OfTweener(Tweener::new(0.0)),
        };
        Modulators {
            keys: [Key::left(0); 16],
            slots: [rest; 16],
        }
    }

    // Puts a modulator into the lowest free slot, unless its arguments have faults.
    #[tactic(auto, using(crate::proofs::Lookups::found))]
    fn put(&mut self, f: Faults, modulator: Modulator) -> Result<ModulatorId, Refusal>
        ensures { added result self.new ≡ put_of self.old f modulator }
    {
        f.accept()?;
        let Some(room) = free(&self.keys) else {
            return Err(Refusal::NoRoom);
        };
        self.keys[room.slot] = Key::taken(room.generation);
        self.slots[room.slot] = Slot { modulator };
        Ok(ModulatorId {
            slot: room.slot as u32,
            generation: room.generation,
        })
    }

    #[tactic(auto, using(crate::proofs::Lookups::found), unfolding(crate::specs::ModulatorTables::add_tweener_of))]
    pub fn add_tweener(&mut self, value: f64) -> Result<ModulatorId, Refusal>
        ensures { added result self.new ≡ add_tweener_of self.old value }
    {
        self.put(
            float_faults(value),
            Modulator::OfTweener(Tweener::new(value)),
        )
    }

    #[tactic(auto, using(crate::proofs::Lookups::found), unfolding(crate::specs::ModulatorTables::add_lfo_of))]
    pub fn add_lfo(&mut self, b: LfoBuilder) -> Result<ModulatorId, Refusal>
        ensures { added result self.new ≡ add_lfo_of self.old b }
    {
        self.put(b.faults(), Modulator::OfLfo(Lfo::new(b)))
    }

    // As that of a clock, but for the type of the id.
    #[tactic(auto, using(crate::proofs::Lookups::found), unfolding(crate::specs::ModulatorTables::remove_of))]
    pub fn remove(&mut self, id: ModulatorId) -> Result<(), Refusal>
        ensures { done result self.new ≡ remove_of self.old id }
    {
        let i = find(&self.keys, id.slot, id.generation)?;
        self.keys[i] = Key::left(id.generation);
        Ok(())
    }

    #[tactic(auto, using(crate::proofs::Lookups::found), unfolding(crate::specs::ModulatorTables::set_tweener_of))]
    pub fn set_tweener(&mut self, id: ModulatorId, target: f64, tween: Tween) -> Result<(), Refusal>
        ensures { done result self.new ≡ set_tweener_of self.old id target tween }
    {
        let i = find(&self.keys, id.slot, id.generation)?;
        let Modulator::OfTweener(w) = &mut self.slots[i].modulator else {
            return Err(Refusal::NeverIssued);
        };
        tweener_faults(target, tween).accept()?;
        w.set(target, tween);
        Ok(())
    }

    // Sets an LFO's frequency, amplitude or offset. Each set finds its modulator itself: a function that lends an
    // array's element was tried, and its proof did not close.
    #[tactic(auto, using(crate::proofs::Lookups::found), unfolding(crate::specs::ModulatorTables::set_parameter_of))]
    pub fn set_parameter(
        &mut self,
        id: ModulatorId,
        which: LfoParameter,
        target: Value<f64>,
        tween: Tween,
    ) -> Result<(), Refusal>
        ensures { done result self.new ≡ set_parameter_of self.old id which target tween }
    {
        let i = find(&self.keys, id.slot, id.generation)?;
        let Modulator::OfLfo(l) = &mut self.slots[i].modulator else {
            return Err(Refusal::NeverIssued);
        };
        target_faults(target, tween).accept()?;
        l.set_parameter(which, target, tween);
        Ok(())
    }

    #[tactic(auto, using(crate::proofs::Lookups::found), unfolding(crate::specs::ModulatorTables::set_waveform_of))]
    pub fn set_waveform(&mut self, id: ModulatorId, waveform: Waveform) -> Result<(), Refusal>
        ensures { done result self.new ≡ set_waveform_of self.old id waveform }
    {
        let i = find(&self.keys, id.slot, id.generation)?;
        let Modulator::OfLfo(l) = &mut self.slots[i].modulator else {
            return Err(Refusal::NeverIssued);
        };
        wave_faults(waveform).accept()?;
        l.set_waveform(waveform);
        Ok(())
    }

    #[tactic(auto, using(crate::proofs::Lookups::found), unfolding(crate::specs::ModulatorTables::set_phase_of))]
    pub fn set_phase(&mut self, id: ModulatorId, radians: f64) -> Result<(), Refusal>
        ensures { done result self.new ≡ set_phase_of self.old id radians }
    {
        let i = find(&self.keys, id.slot, id.generation)?;
        let Modulator::OfLfo(l) = &mut self.slots[i].modulator else {
            return Err(Refusal::NeverIssued);
        };
        float_faults(radians).accept()?;
        l.set_phase(radians);
        Ok(())
    }

    #[tactic(auto, using(crate::proofs::Lookups::found), unfolding(crate::specs::ModulatorTables::modulator_value_of))]
    pub fn value(&self, id: ModulatorId) -> Result<f64, Refusal>
        ensures { told result ≡ modulator_value_of self.now id }
    {
        let i = find(&self.keys, id.slot, id.generation)?;
        Ok(self.slots[i].value())
    }
}
