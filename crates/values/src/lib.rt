// What a station tunes: interpolation, the three units of a speed, and values that are fixed or follow a modulator.
#![tactic(auto)]

pub mod clock_speed;
pub mod tweenable;
pub mod value;
