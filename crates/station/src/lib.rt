// The whole state. A call on a clock or on a modulator acts on its table, and on no more.
#![tactic(auto)]

pub mod frame;
pub mod turns;

ghost use Rattle.std.specs.Prelude.{◌≡◌, map};
ghost use Rattle.clock.specs.OneClock.{info_of};
ghost use Rattle.modulator_table.specs.ModulatorTables.{slot_value};
ghost use Rattle.station.specs.Stations.{fresh_station, info_in};

use clock::{Clock, ClockInfo};
use clock_table::Clocks;
use info::info::Info;
use modulator_table::{Modulators, Slot};

#[derive(Clone, Copy)]
pub struct Station {
    pub clocks: Clocks,
    pub modulators: Modulators,
}

// By the slot's number, as the values below: `map` over the clocks that are lent cost an `Info` some 1,400 instructions
// more.
fn clock_infos(clocks: &[Clock; 16]) -> [ClockInfo; 16]
    ensures { result ≡ map info_of clocks.now }
{
    let none = ClockInfo {
        ticking: false,
        ticks: 0,
        fraction: 0.0,
    };
    let mut infos = [none; 16];
    for i in 0..16 {
        infos[i] = clocks[i].info();
    }
    infos
}

fn values_of(slots: &[Slot; 16]) -> [f64; 16]
    ensures { result ≡ map slot_value slots.now }
{
    let mut values = [0.0; 16];
    for i in 0..16 {
        values[i] = slots[i].value();
    }
    values
}

impl Station {
    pub fn new() -> Station
        ensures { result ≡ fresh_station }
    {
        Station {
            clocks: Clocks::new(),
            modulators: Modulators::new(),
        }
    }

    // What an update sees of the whole state.
    #[tactic(auto, unfolding(crate::specs::Stations::info_in))]
    pub fn info(&self) -> Info
        ensures { result ≡ info_in self.now }
    {
        Info {
            clock_keys: self.clocks.keys,
            clocks: clock_infos(&self.clocks.clocks),
            modulator_keys: self.modulators.keys,
            values: values_of(&self.modulators.slots),
        }
    }
}
