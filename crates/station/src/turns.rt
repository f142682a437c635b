// One modulator's turn of a frame, and one clock's, with what it sees.
ghost use Rattle.std.specs.Prelude.{◌≡◌, OnErr};
ghost use Rattle.clock.specs.OneClock.{moved_told};
ghost use Rattle.station.specs.Turns.{tweener_due, turn_lfo, turn_slot, turn_clock};

use clock::Clock;
use info::info::Info;
use judge::Refusal;
use modulator::lfo::{Lfo, LfoSight};
use modulator::tweener::{Tweener, TweenerState};
use modulator_table::{Modulator, Slot};
use times::start_time::When;

// When a tweener's start is due. A tweener at rest does not ask.
fn tweener_due(info: &Info, t: &Tweener) -> When
    ensures { result ≡ tweener_due info.now t.now }
{
    match &t.state {
        TweenerState::Idle => When::Later,
        TweenerState::Tweening(m) => info.course_due(m.course),
    }
}

fn turn_lfo(info: &Info, l: &mut Lfo, dt: f64)
    ensures { l.new ≡ turn_lfo info.now l.old dt }
{
    let sight = LfoSight {
        frequency: info.sight(&l.frequency),
        amplitude: info.sight(&l.amplitude),
        offset: info.sight(&l.offset),
    };
    l.update(dt, sight);
}

// The turn of the modulator in a slot.
#[tactic(auto, unfolding(crate::specs::Turns::turn_modulator))]
pub fn turn_slot(info: &Info, s: &mut Slot, dt: f64)
    ensures { s.new ≡ turn_slot info.now s.old dt }
{
    match &mut s.modulator {
        Modulator::OfTweener(t) => {
            let due = tweener_due(info, t);
            t.update(dt, due);
        }
        Modulator::OfLfo(l) => turn_lfo(info, l, dt),
    }
}

// A clock that refuses stays as it was.
#[tactic(auto, unfolding(crate::specs::Turns::turn_clock))]
pub fn turn_clock(info: &Info, c: &mut Clock, dt: f64) -> Result<Option<u64>, Refusal>
    ensures turned { moved_told result c.new ≡ turn_clock info.now c.old dt }
    ensures kept { OnErr result (c.new ≡ c.old) }
{
    let sight = info.sight(&c.speed);
    c.update(dt, sight)
}
