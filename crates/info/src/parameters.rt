// Parameters with the clocks and the modulators before them: the caller's update after a frame.
ghost use Rattle.std.specs.Prelude.{◌≡◌};
ghost use Rattle.parameter.specs.Parameters.{advanced_told};
ghost use Rattle.info.specs.ParametersIn.{course_due_of, parameter_due_of, source_of, sight_of, try_update_in};

use crate::info::Info;
use judge::Refusal;
use parameter::course::Course;
use parameter::{Parameter, Sight, State};
use times::start_time::When;
use values::tweenable::Tweenable;

impl Info {
    // When a course's start is due.
    pub fn course_due(&self, c: Course) -> When
        ensures { result ≡ course_due_of self.now c }
    {
        self.start_due(c.tween.start_time)
    }

    // When the tween of a parameter is due. A parameter at rest does not ask.
    pub fn due<T: Tweenable>(&self, p: &Parameter<T>) -> When
        ensures { result ≡ parameter_due_of self.now p.now }
    {
        match p.state {
            State::Idle(_) => When::Later,
            State::Tweening(t) => self.course_due(t.course),
        }
    }

    // What the modulator that a parameter is linked to, or goes to, shows.
    pub fn source<T: Tweenable>(&self, p: &Parameter<T>) -> Option<f64>
        ensures { result ≡ source_of self.now p.now }
    {
        match p.state {
            State::Idle(v) => self.input(v),
            State::Tweening(t) => self.input(t.target),
        }
    }

    // What a parameter sees of the rest.
    pub fn sight<T: Tweenable>(&self, p: &Parameter<T>) -> Sight
        ensures { result ≡ sight_of self.now p.now }
    {
        Sight {
            when: self.due(p),
            input: self.source(p),
        }
    }

    #[tactic(auto, unfolding(crate::specs::ParametersIn::try_update_in))]
    pub fn try_update<T: Tweenable>(&self, p: &mut Parameter<T>, dt: f64) -> Result<bool, Refusal>
        ensures { advanced_told result p.new ≡ try_update_in T.tweens self.now p.old dt }
    {
        let sight = self.sight(p);
        p.try_update(dt, sight)
    }
}
