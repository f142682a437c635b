// Families of calls of docs/BENCH.md: a line's words in, its answer's text put. Each answers None, and puts nothing,
// where the line is no call, behind its name.
#![tactic(auto)]

pub mod curves;
pub mod floats;
pub mod lerps;
pub mod speeds;
