// The calls on the tables as values: a command goes in, and its answer comes back. What drives a station by text goes
// through here.
#![tactic(auto)]

pub mod clock_command;
pub mod modulator_command;

use times::time::{ClockId, ClockTime};
use values::clock_speed::ClockSpeed;
use values::value::ModulatorId;

// What a call gives that is accepted: that it is done, the id of what was added, or what was read.
#[derive(Clone, Copy)]
pub enum CallAnswer {
    Done,
    Clock(ClockId),
    Modulator(ModulatorId),
    Time(ClockTime),
    Flag(bool),
    Speed(ClockSpeed),
    Value(f64),
}
