// The station's answers as whole lines of text, put into a buffer that the caller lends.
#![tactic(auto)]

ghost use Rattle.std.specs.Prelude.{◌≡◌, map};
ghost use Rattle.digits.specs.Outs.{put_in};
ghost use Rattle.digits.specs.Puts.{line_of};
ghost use Rattle.replies.specs.Replies.{ok_text, done_text, id_reply, given_text, answer_text, tick_text, frame_text, shown_of, reported_text};

use answers::Numbered;
use commands::CallAnswer;
use digits::Out;
use ids::Key;
use judge::Refusal;

// A call that has nothing to tell.
pub fn ok(out: &mut Out)
    ensures { out.new ≡ put_in out.old (line_of ok_text) }
{
    out.put(b"ok");
    out.end();
}

// A call that has nothing to tell, or is refused.
pub fn done(out: &mut Out, told: Result<(), Refusal>)
    ensures { out.new ≡ put_in out.old (line_of (done_text told)) }
{
    match told {
        Ok(()) => ok(out),
        Err(r) => answers::refused(out, r),
    }
}

// The id of what was added.
fn id(out: &mut Out, slot: u32, generation: u32)
    ensures { out.new ≡ put_in out.old (line_of (id_reply slot generation)) }
{
    out.put(b"id ");
    answers::id(out, slot, generation);
    out.end();
}

// What an accepted call on the station answers.
fn given(out: &mut Out, told: CallAnswer)
    ensures { out.new ≡ put_in out.old (line_of (given_text told)) }
{
    match told {
        CallAnswer::Done => ok(out),
        CallAnswer::Clock(i) => id(out, i.slot, i.generation),
        CallAnswer::Modulator(i) => id(out, i.slot, i.generation),
        CallAnswer::Time(t) => {
            answers::time(out, t);
            out.end();
        }
        CallAnswer::Flag(b) => {
            out.flag(b);
            out.end();
        }
        CallAnswer::Speed(s) => {
            answers::speed(out, s);
            out.end();
        }
        CallAnswer::Value(x) => {
            out.float(x);
            out.end();
        }
    }
}

// What a call on the station answers.
pub fn answer<R: Numbered>(out: &mut Out, told: Result<CallAnswer, R>)
    ensures { out.new ≡ put_in out.old (line_of (answer_text R.number told)) }
{
    match told {
        Ok(a) => given(out, a),
        Err(r) => answers::refused(out, r),
    }
}

// A slot, and the tick that its clock reported, or none.
fn tick(out: &mut Out, slot: usize, report: Option<u64>)
    ensures { out.new ≡ put_in out.old (tick_text slot report) }
{
    out.counted(b" ", slot as u64);
    out.put(b"=");
    match report {
        Some(n) => out.number(n),
        None => out.put(b"-"),
    }
}

// A frame's answer: what each clock that lives reported, in slot order.
pub fn frame(out: &mut Out, keys: &[Key; 16], reports: &[Option<u64>; 16])
    ensures { out.new ≡ put_in out.old (line_of (frame_text keys.now reports.now)) }
{
    out.put(b"frame");
    // By the slot's number into the reports: a pair of each key and report would be numbered too, and be no plainer.
    for (slot, k) in keys.iter().enumerate() {
        if k.used {
            tick(out, slot, reports[slot]);
        }
    }
    out.end();
}

// A byte, an LF as `;`.
fn shown(b: u8) -> u8
    ensures { result ≡ shown_of b }
{
    if b == b'\n' { b';' } else { b }
}

// Shows every LF of a text as `;`.
pub fn show(text: &mut [u8])
    ensures { text.new ≡ map shown_of text.old }
{
    for b in text {
        *b = shown(*b);
    }
}

// A report's answer: the buffer, behind the refusal where there is one.
pub fn report<R: Numbered>(out: &mut Out, r: Result<usize, R>, buffer: &[u8])
    ensures { out.new ≡ put_in out.old (line_of (reported_text R.number r buffer.now)) }
{
    if let Err(e) = r {
        out.counted(b"refused ", e.number() as u64);
        out.put(b" ");
    }
    out.put(buffer);
    out.end();
}
