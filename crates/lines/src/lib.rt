// What a line of docs/BENCH.md asks of the station: the command that it is, if it is one.
#![tactic(auto)]

pub mod clock_lines;
pub mod modulator_lines;
pub mod things;
