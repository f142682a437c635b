// A recording replayed: what each record asks of a station, and all of them in their order on a fresh one, up to the
// first refusal. RULES, replay.
#![tactic(auto)]

ghost use Rattle.std.specs.Prelude.{◌≡◌, OnErr, length};
ghost use Rattle.judge.specs.declared.Refusal.TheVariants.{Trace};
ghost use Rattle.play.specs.declared.Place.TheVariants as place;
ghost use Rattle.play.specs.Asked.{id_of, speed_of, no_time, taken, taken_on};
ghost use Rattle.play.specs.Replays.{told_verdict, told_replay, end_of, replayed, replay_of};
ghost use Rattle.recording.specs.Recordings.{tape_at};

use judge::Refusal;
use record::{Op, Record};
use recording::Read;
use station::Station;
use times::start_time::StartTime;
use times::time::ClockId;
use times::tween::{Easing, Tween};
use values::clock_speed::ClockSpeed;
use values::value::Value;

// Where a replay was refused: at a byte of the recording, or in a record, by its number.
#[derive(Clone, Copy, Debug, PartialEq, Eq)]
pub enum Place {
    Byte(usize),
    Record(usize),
}

#[derive(Clone, Copy, Debug, PartialEq, Eq)]
pub struct Refused {
    pub why: Refusal,
    pub place: Place,
}

// Where a replay ended, and what was refused. The station is then the one from before the refused record.
#[derive(Clone, Copy)]
pub struct Replayed {
    pub station: Station,
    pub verdict: Result<(), Refused>,
}

fn id_of(r: Record) -> ClockId
    ensures { result ≡ id_of r }
{
    ClockId {
        slot: r.slot,
        generation: r.generation,
    }
}

// A speed is in ticks per second.
fn speed_of(r: Record) -> Value<ClockSpeed>
    ensures { result ≡ speed_of r }
{
    Value::Fixed(ClockSpeed::TicksPerSecond(doubles::of_bits(r.arg)))
}

// It is set by a linear tween that starts at once and takes no time.
fn no_time() -> Tween
    ensures { result ≡ no_time }
{
    Tween {
        start_time: StartTime::Immediate,
        duration: 0,
        easing: Easing::Linear,
    }
}

// A record's call on a station. An add is made on a copy of the clocks, since one that gives another id than the
// record's leaves them.
fn take(st: &mut Station, r: Record) -> Result<(), Refusal>
    ensures { (taken result st.new ≡ taken_on st.old r) × OnErr result (st.new ≡ st.old) }
{
    match r.op {
        Op::Add => {
            let mut clocks = st.clocks;
            if clocks.add(speed_of(r))? != id_of(r) {
                return Err(Refusal::WrongId);
            }
            st.clocks = clocks;
            Ok(())
        }
        Op::Drop => st.clocks.remove(id_of(r)),
        Op::Start => st.clocks.start(id_of(r)),
        Op::Stop => st.clocks.stop(id_of(r)),
        Op::Reset => st.clocks.reset(id_of(r)),
        Op::Speed => st.clocks.set_speed(id_of(r), speed_of(r), no_time()),
        Op::Frame => {
            st.frame(doubles::of_bits(r.arg))?;
            Ok(())
        }
    }
}

// A line that is not one of a record, or a recording that ends inside one.
fn trace(at: usize) -> Refused
    ensures { result ≡ record { why = Trace; place = place.Byte at } }
{
    Refused {
        why: Refusal::Trace,
        place: Place::Byte(at),
    }
}

// Every record of a recording, up to the first that is refused.
fn records(st: &mut Station, s: &[u8]) -> Result<(), Refused>
    ensures { record { station = st.new; verdict = told_verdict result } ≡ replayed (length s.now) (end_of taken_on 0 st.old (tape_at s.now 0)) }
{
    let mut at: usize = 0;
    let mut count: usize = 0;
    // No `for`: where the next record begins, only the record before says.
    loop {
        match recording::record_at(s, at) {
            Read::Record(r, behind) => {
                if let Err(why) = take(st, r) {
                    let place = Place::Record(count);
                    return Err(Refused { why, place });
                }
                at = behind;
                count += 1;
            }
            Read::End => return Ok(()),
            Read::Unfinished => return Err(trace(s.len())),
            Read::Bad(place) => return Err(trace(place)),
        }
    }
}

// A recording on a fresh station.
pub fn replay(s: &[u8]) -> Replayed
    ensures { told_replay result ≡ replay_of s.now }
{
    let mut station = Station::new();
    let verdict = records(&mut station, s);
    Replayed { station, verdict }
}
