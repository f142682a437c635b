// The cases: each sets up what it needs, makes its call a number of times, and tells what came of it.
use crate::made;
use crate::told::{Told, mixed, tell};
use clock_table::Clocks;
use modulator_table::Modulators;
use station::Station;

// The seconds of a frame, and of an update.
const DT: f64 = 0.001953125;

// Frames on a station of these tables, and the ticks that one of its clocks reported, mixed into one number.
fn framed(clocks: Clocks, modulators: Modulators, dt: f64, count: u64) -> (Station, u64) {
    let mut st = Station { clocks, modulators };
    let mut reported = 0;
    for _ in 0..count {
        let tick = match st.frame(dt) {
            Ok(reports) => reports[5],
            Err(_) => None,
        };
        reported = mixed(reported, tick.unwrap_or(0));
    }
    (st, reported)
}

// A frame with 16 clocks that tick and 16 modulators.
pub fn frames(count: u64) -> Told {
    let (st, reported) = framed(made::clocks(), made::modulators(), DT, count);
    tell(&st.info(), reported)
}

// A frame in which one clock takes 65,536 ticks, and 15 stand.
pub fn catchups(count: u64) -> Told {
    let (st, reported) = framed(made::one_fast(), Modulators::new(), 1.0, count);
    tell(&st.info(), reported)
}

// A clock's speed is set, with a tween. A frame of a second at the end shows what became of the table.
pub fn commands(count: u64) -> Told {
    let mut table = made::clocks();
    for i in 0..count {
        made::retune(&mut table, (i & 15) as u32);
    }
    let (st, reported) = framed(table, Modulators::new(), 1.0, 1);
    tell(&st.info(), reported)
}

// A parameter in the middle of its tween is updated. What is reported is how many updates were left at its end.
pub fn updates(count: u64) -> Told {
    let (st, _) = framed(made::clocks(), made::modulators(), DT, 1);
    let info = st.info();
    let mut p = made::parameter();
    let mut finished = 0;
    for i in 0..count {
        if info.try_update(&mut p, DT) == Ok(true) {
            finished = count - i;
        }
    }
    Told {
        reported: finished,
        ticks: 0,
        fractions: 0,
        values: doubles::bits(p.raw),
    }
}
