// The table of clocks, and the calls on it: by an id, or adding one.

#![tactic(auto)]

ghost use Rattle.std.specs.Prelude.{◌≡◌, true, false};
ghost use Rattle.judge.specs.Answer.{told};
ghost use Rattle.ids.specs.Tables.{done, added};
ghost use Rattle.clock_table.specs.ClockTables.{no_clocks, look_of, add_clock_of, remove_of, tick_on_of, reset_clock_of, set_speed_of, time_of, clock_time_of, clock_ticking_of, clock_speed_of};

use clock::Clock;
use ids::{Key, find, free};
use judge::Refusal;
use times::time::{ClockId, ClockTime, time_at};
use times::tween::Tween;
use values::clock_speed::ClockSpeed;
use values::value::Value;

// A key and a clock for each slot. What a slot that is not used holds is not read. Keys stand apart, since the search
// and the lookup of `ids`, and the definitions that its theorems speak of (`free_of`, `find_of`), go over keys alone.
#[derive(Clone, Copy)]
pub struct Clocks {
    pub keys: [Key; 16],
    pub clocks: [Clock; 16],
}

fn time_of(id: ClockId, c: &Clock) -> ClockTime
    ensures { result ≡ time_of id c.now }
{
    let p = c.state.position();
    time_at(id, p.ticks, p.fraction)
}

// A call that is refused leaves the table as it was.
impl Clocks {
    pub fn new() -> Clocks
        ensures { result ≡ no_clocks }
    {
        let rest = Value::Fixed(ClockSpeed::TicksPerSecond(0.0));
        Clocks {
            keys: [Key::left(0); 16],
            clocks: [Clock::new(rest); 16],
        }
    }

    #[tactic(auto, using(crate::proofs::Lookups::found), unfolding(crate::specs::ClockTables::add_clock_of))]
    pub fn add(&mut self, speed: Value<ClockSpeed>) -> Result<ClockId, Refusal>
        ensures { added result self.new ≡ add_clock_of self.old speed }
    {
        speed.faults().accept()?;
        let Some(room) = free(&self.keys) else {
            return Err(Refusal::NoRoom);
        };
        self.keys[room.slot] = Key::taken(room.generation);
        self.clocks[room.slot] = Clock::new(speed);
        Ok(ClockId {
            slot: room.slot as u32,
            generation: room.generation,
        })
    }

    // The clock that an id names, with its slot, for whoever only reads it.
    #[tactic(auto, using(crate::proofs::Lookups::found), unfolding(crate::specs::ClockTables::look_of))]
    pub fn look(&self, id: ClockId) -> Result<(usize, Clock), Refusal>
        ensures { told result ≡ look_of self.now id }
    {
        let i = find(&self.keys, id.slot, id.generation)?;
        Ok((i, self.clocks[i]))
    }

    // That of a modulator differs in the type of the id. One table for both kinds would be no plainer: each of these
    // calls would be a second one, on the table inside.
    #[tactic(auto, using(crate::proofs::Lookups::found), unfolding(crate::specs::ClockTables::remove_of))]
    pub fn remove(&mut self, id: ClockId) -> Result<(), Refusal>
        ensures { done result self.new ≡ remove_of self.old id }
    {
        let i = find(&self.keys, id.slot, id.generation)?;
        self.keys[i] = Key::left(id.generation);
        Ok(())
    }

    // Starts a clock, or stops it.
    #[tactic(auto, using(crate::proofs::Lookups::found), unfolding(crate::specs::ClockTables::tick_on_of))]
    fn set_ticking(&mut self, id: ClockId, ticking: bool) -> Result<(), Refusal>
        ensures { done result self.new ≡ tick_on_of ticking self.old id }
    {
        let i = find(&self.keys, id.slot, id.generation)?;
        self.clocks[i].set_ticking(ticking);
        Ok(())
    }

    pub fn start(&mut self, id: ClockId) -> Result<(), Refusal>
        ensures { done result self.new ≡ tick_on_of true self.old id }
    {
        self.set_ticking(id, true)
    }

    pub fn stop(&mut self, id: ClockId) -> Result<(), Refusal>
        ensures { done result self.new ≡ tick_on_of false self.old id }
    {
        self.set_ticking(id, false)
    }

    #[tactic(auto, using(crate::proofs::Lookups::found), unfolding(crate::specs::ClockTables::reset_clock_of))]
    pub fn reset(&mut self, id: ClockId) -> Result<(), Refusal>
        ensures { done result self.new ≡ reset_clock_of self.old id }
    {
        let i = find(&self.keys, id.slot, id.generation)?;
        self.clocks[i].reset();
        Ok(())
    }

    #[tactic(auto, using(crate::proofs::Lookups::found), unfolding(crate::specs::ClockTables::set_speed_of))]
    pub fn set_speed(
        &mut self,
        id: ClockId,
        target: Value<ClockSpeed>,
        tween: Tween,
    ) -> Result<(), Refusal>
        ensures { done result self.new ≡ set_speed_of self.old id target tween }
    {
        let i = find(&self.keys, id.slot, id.generation)?;
        self.clocks[i].speed.try_set(target, tween)
    }

    pub fn time(&self, id: ClockId) -> Result<ClockTime, Refusal>
        ensures { told result ≡ clock_time_of self.now id }
    {
        let (_, c) = self.look(id)?;
        Ok(time_of(id, &c))
    }

    pub fn ticking(&self, id: ClockId) -> Result<bool, Refusal>
        ensures { told result ≡ clock_ticking_of self.now id }
    {
        let (_, c) = self.look(id)?;
        Ok(c.ticking)
    }

    pub fn speed(&self, id: ClockId) -> Result<ClockSpeed, Refusal>
        ensures { told result ≡ clock_speed_of self.now id }
    {
        let (_, c) = self.look(id)?;
        Ok(c.speed.raw)
    }
}
