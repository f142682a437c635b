// What an update sees of the clocks and the modulators, as info.rs has it, and what is read by it.
#![tactic(auto)]

pub mod info;
pub mod parameters;
