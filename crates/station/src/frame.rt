// The frame: every modulator's turn and then every clock's, from the lowest slot on. A clock that refuses its turn
// undoes them all: RULES, frame-order and frame-refused.
ghost use Rattle.std.specs.Prelude.{◌≡◌, map};
ghost use Rattle.clock.specs.OneClock.{info_of};
ghost use Rattle.modulator_table.specs.ModulatorTables.{slot_value};
ghost use Rattle.station.specs.Frames.{seeing, slots_turned, tried, all_turns, framed_told, frame_of};

use crate::Station;
use crate::turns::{turn_clock, turn_slot};
use clock::Clock;
use ids::Key;
use info::info::Info;
use judge::{Refusal, dt_faults};
use modulator_table::Slot;

// Each modulator's turn. What is seen has its new value before the next turn; each turn reads it whole, so the loop
// goes by the slot and not by an iterator over the values, and so does the clocks'. Keys and entries are lent apart, so
// that an entry can change while the keys are read.
fn turn_modulators(keys: &[Key; 16], slots: &mut [Slot; 16], info: &mut Info, dt: f64)
    requires { info.old.values ≡ map slot_value slots.old }
    ensures slots_turned { slots.new ≡ slots_turned info.old dt keys.now slots.old }
    ensures info_seeing { info.new ≡ seeing info.old slots.new }
{
    for i in 0..16 {
        if keys[i].used {
            turn_slot(info, &mut slots[i], dt);
            info.values[i] = slots[i].value();
        }
    }
}

// Each clock's turn, until one refuses: then the clocks before it have had theirs. Answers what each slot's clock
// reported.
fn turn_clocks(
    keys: &[Key; 16],
    clocks: &mut [Clock; 16],
    info: &mut Info,
    dt: f64,
) -> Result<[Option<u64>; 16], Refusal>
    requires { info.old.clocks ≡ map info_of clocks.old }
    ensures { tried result clocks.new ≡ all_turns info.old dt keys.now clocks.old }
{
    let mut reports = [None; 16];
    for i in 0..16 {
        if keys[i].used {
            reports[i] = turn_clock(info, &mut clocks[i], dt)?;
            info.clocks[i] = clocks[i].info();
        }
    }
    Ok(reports)
}

impl Station {
    // What the clock of each slot reported. The turns are made on a copy, so that a refused frame leaves the station.
    pub fn frame(&mut self, dt: f64) -> Result<[Option<u64>; 16], Refusal>
        ensures { framed_told result self.new ≡ frame_of self.old dt }
    {
        dt_faults(dt).accept()?;
        let mut next = *self;
        let mut info = self.info();
        let modulators = &mut next.modulators;
        turn_modulators(&modulators.keys, &mut modulators.slots, &mut info, dt);
        let clocks = &mut next.clocks;
        let reports = turn_clocks(&clocks.keys, &mut clocks.clocks, &mut info, dt)?;
        *self = next;
        Ok(reports)
    }
}
