// Times: durations in whole nanoseconds, clock times, start times, and tweens with their easings.
#![tactic(auto)]

pub mod duration;
pub mod start_time;
pub mod time;
pub mod tween;
