// One clock, as clock.rs has it.
#![tactic(auto)]

ghost use Rattle.std.specs.Prelude.{◌≡◌, OnErr};
ghost use Rattle.clock.specs.OneClock.{new_clock, position_of, info_of, ticking_of, reset_of, sped_of, moved_told, tick_of, update_clock_of};

use judge::Refusal;
use parameter::{Parameter, Sight};
use ticks::{Position, take_ticks};
use values::clock_speed::ClockSpeed;
use values::value::Value;

// Of the shape of Option, and no plainer as one: a None of a position would not say that the clock has yet to start.
#[derive(Clone, Copy)]
pub enum ClockState {
    NotStarted,
    Started(Position),
}

impl ClockState {
    pub fn position(self) -> Position
        ensures { result ≡ position_of self }
    {
        match self {
            ClockState::NotStarted => Position {
                ticks: 0,
                fraction: 0.0,
            },
            ClockState::Started(p) => p,
        }
    }
}

// What is seen of one clock. A clock that has not started reads 0 and 0.0.
#[derive(Clone, Copy)]
pub struct ClockInfo {
    pub ticking: bool,
    pub ticks: u64,
    pub fraction: f64,
}

#[derive(Clone, Copy)]
pub struct Clock {
    pub ticking: bool,
    pub speed: Parameter<ClockSpeed>,
    pub state: ClockState,
}

impl Clock {
    // A clock is stopped when it is made. A linked speed is 120 per minute until the first update.
    pub fn new(speed: Value<ClockSpeed>) -> Clock
        ensures { result ≡ new_clock speed }
    {
        Clock {
            ticking: false,
            speed: Parameter::new(speed, ClockSpeed::TicksPerMinute(120.0)),
            state: ClockState::NotStarted,
        }
    }

    // What others see of a clock.
    pub fn info(&self) -> ClockInfo
        ensures { result ≡ info_of self.now }
    {
        let p = self.state.position();
        ClockInfo {
            ticking: self.ticking,
            ticks: p.ticks,
            fraction: p.fraction,
        }
    }

    pub fn set_ticking(&mut self, ticking: bool)
        ensures { self.new ≡ ticking_of ticking self.old }
    {
        self.ticking = ticking;
    }

    pub fn set_speed(&mut self, speed: Parameter<ClockSpeed>)
        ensures { self.new ≡ sped_of speed self.old }
    {
        self.speed = speed;
    }

    // Back to not started, and nothing else: RULES, reset.
    pub fn reset(&mut self)
        ensures { self.new ≡ reset_of self.old }
    {
        self.state = ClockState::NotStarted;
    }

    // The update of a ticking clock, its speed updated before. It reports the new state's own count: RULES,
    // tick-report.
    fn tick(&mut self, speed: Parameter<ClockSpeed>, dt: f64) -> Result<Option<u64>, Refusal>
        ensures told { moved_told result self.new ≡ tick_of speed self.old.state dt }
        ensures kept { OnErr result (self.new ≡ self.old) }
    {
        let advance = speed.raw.as_ticks_per_second() * dt;
        if advance > 65536.0 {
            return Err(Refusal::TooFar);
        }
        let from = self.state.position();
        let sum = from.fraction + advance;
        let to = take_ticks(from.ticks, sum)?;
        let told = matches!(self.state, ClockState::NotStarted) || sum >= 1.0;
        *self = Clock {
            ticking: true,
            speed,
            state: ClockState::Started(to),
        };
        Ok(told.then_some(to.ticks))
    }

    // The speed is updated first, and a clock that does not tick does no more. A refused update leaves the clock.
    #[tactic(auto, unfolding(crate::specs::OneClock::update_clock_of))]
    pub fn update(&mut self, dt: f64, sight: Sight) -> Result<Option<u64>, Refusal>
        ensures told { moved_told result self.new ≡ update_clock_of self.old dt sight.when sight.input }
        ensures kept { OnErr result (self.new ≡ self.old) }
    {
        let mut speed = self.speed;
        speed.update(dt, sight);
        if self.ticking {
            return self.tick(speed, dt);
        }
        self.speed = speed;
        Ok(None)
    }
}
