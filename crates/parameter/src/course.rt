// The timing of a tween under way: what parameters and tweeners share.
ghost use Rattle.std.specs.Prelude.{◌≡◌};
ghost use Rattle.parameter.specs.Courses.{new_course, started_of, waited_of, step_of, amount_at};

use times::duration::as_secs_f64;
use times::start_time::{StartTime, When, shorter};
use times::tween::{Tween, tween_value};

// A tween, and how long it has run.
#[derive(Clone, Copy)]
pub struct Course {
    pub tween: Tween,
    pub time: f64,
}

// A course after an update. One that ends is over.
#[derive(Clone, Copy)]
pub enum Stepped {
    Waits(Course),
    Goes(Course),
    Ends,
}

// The start test. It is asked at every update, of a tween that has begun too. `when` is read where the
// start is a clock time. Each kind of start has a test of its own, so it is no one `matches!`.
pub fn started(start: StartTime, when: When) -> bool
    ensures { result ≡ started_of start when }
{
    match start {
        StartTime::Immediate => true,
        StartTime::Delayed(ns) => ns == 0,
        StartTime::At(_) => matches!(when, When::Now),
    }
}

// A start that did not pass the test, after dt. A delay stays one at 0, and passes the test of the update after:
// RULES, delay-at-zero.
fn waited(start: StartTime, dt: f64) -> StartTime
    ensures { result ≡ waited_of start dt }
{
    match start {
        StartTime::Delayed(ns) => StartTime::Delayed(shorter(ns, dt)),
        StartTime::Immediate | StartTime::At(_) => start,
    }
}

impl Course {
    pub fn begin(tween: Tween) -> Course
        ensures { result ≡ new_course tween }
    {
        Course { tween, time: 0.0 }
    }

    // One update.
    pub fn step(self, dt: f64, when: When) -> Stepped
        ensures { result ≡ step_of self dt when }
    {
        let Course { tween, time } = self;
        if !started(tween.start_time, when) {
            let start_time = waited(tween.start_time, dt);
            let tween = Tween {
                start_time,
                ..tween
            };
            return Stepped::Waits(Course { tween, time });
        }
        let time = time + dt;
        if time >= as_secs_f64(tween.duration) {
            return Stepped::Ends;
        }
        Stepped::Goes(Course { tween, time })
    }

    // How far the tween has come, eased.
    pub fn amount(self) -> f64
        ensures { result ≡ amount_at self }
    {
        tween_value(self.tween, self.time)
    }
}
