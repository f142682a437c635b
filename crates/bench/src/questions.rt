// The program's own part: the calls that ask the station and leave it as it is: when, val.raw, sval.raw, start.up and
// clock.report. Proved safe, with no equations: docs/EXCEPTIONS.md says why.
use answers::Shown;
use clock_table::Clocks;
use digits::Out;
use grammar::Spelled;
use judge::Refusal;
use names::QuestionCall;
use station::Station;
use text::words::Words;
use times::start_time::When;
use times::time::ClockId;
use values::clock_speed::ClockSpeed;

fn due(mut words: Words<'_>, out: &mut Out, st: &Station) -> Option<()> {
    let t = grammar::clock_time(&mut words)?;
    grammar::end(&words)?;
    match st.info().try_when_to_start(t) {
        Ok(When::Now) => out.put(b"now\n"),
        Ok(When::Later) => out.put(b"later\n"),
        Ok(When::Never) => out.put(b"never\n"),
        Err(r) => answers::refused(out, r),
    }
    Some(())
}

fn raw<T: Spelled + Shown>(mut words: Words<'_>, out: &mut Out, st: &Station) -> Option<()> {
    let v = grammar::value::<T>(&mut words)?;
    grammar::end(&words)?;
    match st.info().try_raw(v) {
        Ok(Some(x)) => answers::reply(out, Ok::<T, Refusal>(x)),
        Ok(None) => out.put(b"none\n"),
        Err(r) => answers::refused(out, r),
    }
    Some(())
}

fn start(mut words: Words<'_>, out: &mut Out, st: &Station) -> Option<()> {
    let s = grammar::start(&mut words)?;
    let dt = grammar::float(&mut words)?;
    grammar::end(&words)?;
    match st.info().try_update_start(s, dt) {
        Ok(w) => {
            out.flag(w.never);
            out.put(b" ");
            answers::start(out, w.start);
            out.end();
        }
        Err(r) => answers::refused(out, r),
    }
    Some(())
}

pub fn call(words: Words<'_>, call: QuestionCall, out: &mut Out, st: &Station) -> Option<()> {
    match call {
        QuestionCall::When => due(words, out, st),
        QuestionCall::ValRaw => raw::<f64>(words, out, st),
        QuestionCall::SvalRaw => raw::<ClockSpeed>(words, out, st),
        QuestionCall::StartUp => start(words, out, st),
    }
}

// A report into a buffer of as many bytes as the line says, 256 at most, each a `.` before the call; and the buffer as
// text.
pub fn report(mut words: Words<'_>, out: &mut Out, t: &Clocks) -> Option<()> {
    let (slot, generation) = grammar::id(&mut words)?;
    let length = grammar::number(&mut words)?;
    grammar::end(&words)?;
    let mut dots = [b'.'; 256];
    let buffer = dots.get_mut(..length as usize)?;
    let told = report::report(t, ClockId { slot, generation }, buffer);
    replies::show(buffer);
    replies::report(out, told, buffer);
    Some(())
}
