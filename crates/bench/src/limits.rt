// The program's own part: the calls clock.preset, clock.gen and mod.gen. They put a table where no run comes in time,
// so that its limits can be tried; they are no public entries. Proved safe, with no equations: docs/EXCEPTIONS.md says
// why.
use clock::{Clock, ClockState};
use clock_table::Clocks;
use digits::Out;
use ids::{Key, find};
use judge::Refusal;
use names::LimitCall;
use station::Station;
use text::words::Words;
use ticks::Position;
use times::time::{ClockTime, clock_time_faults};

// Puts a clock that lives at a time, started, unless the time is refused. Keys and clocks are lent apart, since a proof
// knows how long arrays are that are lent by themselves.
#[tactic(auto, using(ids::proofs::Places::found_inside))]
fn start_at(keys: &[Key; 16], clocks: &mut [Clock; 16], t: ClockTime) -> Result<(), Refusal> {
    let i = find(keys, t.clock.slot, t.clock.generation)?;
    clock_time_faults(t).accept()?;
    clocks[i].state = ClockState::Started(Position {
        ticks: t.ticks,
        fraction: t.fraction,
    });
    Ok(())
}

fn preset(mut words: Words<'_>, out: &mut Out, t: &mut Clocks) -> Option<()> {
    let time = grammar::clock_time(&mut words)?;
    grammar::end(&words)?;
    replies::done(out, start_at(&t.keys, &mut t.clocks, time));
    Some(())
}

// The slot that a line names gets the generation that it gives, where the slot is free and of the table.
fn give(mut words: Words<'_>, out: &mut Out, keys: &mut [Key; 16]) -> Option<()> {
    let (slot, generation) = grammar::id(&mut words)?;
    grammar::end(&words)?;
    let key = keys.get_mut(slot as usize)?;
    if key.used {
        return None;
    }
    *key = Key::left(generation);
    replies::ok(out);
    Some(())
}

pub fn on(words: Words<'_>, call: LimitCall, out: &mut Out, st: &mut Station) -> Option<()> {
    match call {
        LimitCall::Preset => preset(words, out, &mut st.clocks),
        LimitCall::ClockGen => give(words, out, &mut st.clocks.keys),
        LimitCall::ModGen => give(words, out, &mut st.modulators.keys),
    }
}
