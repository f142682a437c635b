// A clock's report, six lines of text, and the reports of all clocks, at the start of a buffer that the caller lends. A
// refusal leaves the buffer as it was. 01, "Worked rows"; docs/RULES.md, report and reports.
#![tactic(auto)]

ghost use Rattle.std.specs.Prelude.{◌<◌, ◌≤◌, ◌≡◌, not, length};
ghost use Rattle.judge.specs.Answer.{accepted};
ghost use Rattle.clock.specs.OneClock.{fresh_of};
ghost use Rattle.digits.specs.Outs.{put_in};
ghost use Rattle.digits.specs.Puts.{whole};
ghost use Rattle.report.specs.Reports.{report_lines, clock_lines, report_text, into_buffer, report_of, reported};
ghost use Rattle.report.specs.AllReports.{slot_lines, all_reports_of};

use clock::{Clock, ClockState};
use clock_table::Clocks;
use digits::Out;
use ids::{Key, find};
use judge::Refusal;
use ticks::Position;
use times::time::ClockId;

// The longest report, and so the least buffer.
const LONGEST: usize = 96;

// The same for the reports of all 16 clocks.
const ALL: usize = 16 * LONGEST;

fn started(state: ClockState) -> bool
    ensures { result ≡ not (fresh_of state) }
{
    matches!(state, ClockState::Started(_))
}

// The six lines.
fn lines(out: &mut Out, id: ClockId, ticking: bool, started: bool, p: Position)
    ensures { out.new ≡ put_in out.old (report_lines id ticking started p) }
{
    out.counted(b"slot=", id.slot as u64);
    out.end();
    out.counted(b"gen=", id.generation as u64);
    out.end();
    out.flagged(b"ticking=", ticking);
    out.end();
    out.flagged(b"started=", started);
    out.end();
    out.counted(b"ticks=", p.ticks);
    out.end();
    out.named(b"fraction=", p.fraction);
    out.end();
}

// A clock's lines. Their length is bounded here, where the position is read: its ticks have 64 bits.
fn clock_lines(out: &mut Out, id: ClockId, c: &Clock)
    requires { id.slot < 16 }
    ensures puts { out.new ≡ put_in out.old (clock_lines id c.now) }
    ensures c_len_bound { length (report_text id c.now) ≤ 96 }
{
    lines(out, id, c.ticking, started(c.state), c.state.position());
}

// A living clock's report, unless the buffer may be too short for it.
fn fill(out: &mut [u8], id: ClockId, c: &Clock) -> Result<usize, Refusal>
    requires { id.slot < 16 }
    ensures { reported result out.new ≡ into_buffer out.old (accepted (report_text id c.now)) }
{
    if out.len() < LONGEST {
        return Err(Refusal::Buffer);
    }
    let mut text = Out::new(out);
    clock_lines(&mut text, id, c);
    Ok(text.place())
}

// The report of the clock that an id names, of a table's keys and clocks: a proof knows how long arrays are that are
// lent by themselves.
#[tactic(auto, using(ids::proofs::Places::found_inside))]
fn named(
    keys: &[Key; 16],
    clocks: &[Clock; 16],
    id: ClockId,
    out: &mut [u8],
) -> Result<usize, Refusal>
    ensures { reported result out.new ≡ report_of (record { keys = keys.now; clocks = clocks.now }) id out.old }
{
    let i = find(keys, id.slot, id.generation)?;
    fill(out, id, &clocks[i])
}

// How many bytes were written.
pub fn report(t: &Clocks, id: ClockId, out: &mut [u8]) -> Result<usize, Refusal>
    ensures { reported result out.new ≡ report_of t.now id out.old }
{
    named(&t.keys, &t.clocks, id, out)
}

// The lines of one slot: none where it is not used, since what it holds then is no clock.
fn slot_lines(out: &mut Out, slot: usize, k: Key, c: &Clock)
    requires { slot < 16 }
    ensures puts { out.new ≡ put_in out.old (slot_lines slot k c.now) }
    ensures c_len_bound { length (whole (slot_lines slot k c.now)) ≤ 96 }
{
    if !k.used {
        return;
    }
    let id = ClockId {
        slot: slot as u32,
        generation: k.generation,
    };
    clock_lines(out, id, c);
}

// The reports of the clocks that live, in the order of their slots, from the buffer's start; how many bytes they have.
pub fn reports(t: &Clocks, out: &mut [u8]) -> Result<usize, Refusal>
    ensures { reported result out.new ≡ all_reports_of t.now out.old }
{
    if out.len() < ALL {
        return Err(Refusal::Buffer);
    }
    let mut text = Out::new(out);
    // By the slot's number into the clocks: `zip` of the two arrays was tried, and its goals stayed open.
    for (slot, k) in t.keys.iter().enumerate() {
        slot_lines(&mut text, slot, *k, &t.clocks[slot]);
    }
    Ok(text.place())
}
