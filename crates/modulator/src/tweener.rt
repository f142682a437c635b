// A tweener, as modulator/tweener.rs has it.
ghost use Rattle.std.specs.Prelude.{◌≡◌};
ghost use Rattle.modulator.specs.Tweeners.{new_tweener, tweener_to_of, tweener_faults, update_tweener_of};

use judge::{Faults, float_faults};
use parameter::course::{Course, Stepped};
use times::start_time::When;
use times::tween::{Tween, tween_faults};
use values::tweenable::Tweenable;

// A tween under way: from a value to a target.
#[derive(Clone, Copy)]
pub struct TweenerMove {
    pub start: f64,
    pub target: f64,
    pub course: Course,
}

// Of the shape of Option, and no plainer as one: `self.state = None` would not say that the tweener is at rest.
#[derive(Clone, Copy)]
pub enum TweenerState {
    Idle,
    Tweening(TweenerMove),
}

#[derive(Clone, Copy)]
pub struct Tweener {
    pub state: TweenerState,
    pub value: f64,
}

// What is wrong with a set.
pub fn tweener_faults(target: f64, tween: Tween) -> Faults
    ensures { result ≡ tweener_faults target tween }
{
    float_faults(target).and(tween_faults(tween))
}

impl Tweener {
    pub fn new(value: f64) -> Tweener
        ensures { result ≡ new_tweener value }
    {
        Tweener {
            state: TweenerState::Idle,
            value,
        }
    }

    // A tween from the present value to a target.
    pub fn set(&mut self, target: f64, tween: Tween)
        ensures { self.new ≡ tweener_to_of target tween self.old }
    {
        self.state = TweenerState::Tweening(TweenerMove {
            start: self.value,
            target,
            course: Course::begin(tween),
        });
    }

    // One that waits keeps what it shows, and one that ends shows its target: RULES, tweener-update.
    #[tactic(auto, unfolding(crate::specs::Tweeners::update_tweener_of, crate::specs::Tweeners::moved_of))]
    pub fn update(&mut self, dt: f64, when: When)
        ensures { self.new ≡ update_tweener_of self.old dt when }
    {
        let TweenerState::Tweening(m) = self.state else {
            return;
        };
        match m.course.step(dt, when) {
            Stepped::Waits(course) => {
                self.state = TweenerState::Tweening(TweenerMove { course, ..m });
            }
            Stepped::Goes(course) => {
                self.state = TweenerState::Tweening(TweenerMove { course, ..m });
                self.value = f64::interpolate(m.start, m.target, course.amount());
            }
            Stepped::Ends => {
                self.state = TweenerState::Idle;
                self.value = m.target;
            }
        }
    }
}
