// What is told of a station: every clock and every modulator has its part in it.
use info::info::Info;

// The ticks that a clock reported; each other number is mixed of all slots.
#[derive(Clone, Copy)]
pub struct Told {
    pub reported: u64,
    pub ticks: u64,
    pub fractions: u64,
    pub values: u64,
}

// One number more, mixed into those before it. Their order counts, so that equal slots do not cancel.
pub fn mixed(sum: u64, x: u64) -> u64 {
    ((sum << 1) | (sum >> 63)) ^ x
}

pub fn tell(info: &Info, reported: u64) -> Told {
    let mut ticks = 0;
    let mut fractions = 0;
    let mut values = 0;
    for (c, v) in info.clocks.iter().zip(&info.values) {
        ticks = mixed(ticks, c.ticks);
        fractions = mixed(fractions, doubles::bits(c.fraction));
        values = mixed(values, doubles::bits(*v));
    }
    Told {
        reported,
        ticks,
        fractions,
        values,
    }
}
