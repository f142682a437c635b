// The program's own part: the calls that the station runs. A line is read as a call, run, and answered. Proved safe,
// with no equations: docs/EXCEPTIONS.md says why.
use digits::Out;
use lines::{clock_lines, modulator_lines};
use names::Call;
use run::run;
use station::Station;
use text::words::Words;

// The time that a line gives a frame, and nothing behind it.
fn frame(mut words: Words<'_>) -> Option<f64> {
    let dt = grammar::float(&mut words)?;
    grammar::end(&words)?;
    Some(dt)
}

// What a call asks the station to run, behind its name.
fn asked(words: Words<'_>, call: Call) -> Option<run::Call> {
    let asked = match call {
        Call::AddClock => run::Call::Clock(clock_lines::add_line(words)?),
        Call::SetClockSpeed => run::Call::Clock(clock_lines::set_speed_line(words)?),
        Call::OneClock(c) => run::Call::Clock(clock_lines::by_id_line(words, c)?),
        Call::AddTweener => run::Call::Modulator(modulator_lines::add_tweener_line(words)?),
        Call::AddLfo => run::Call::Modulator(modulator_lines::add_lfo_line(words)?),
        Call::OneModulator(c) => run::Call::Modulator(modulator_lines::by_id_line(words, c)?),
        Call::Frame => run::Call::Frame(frame(words)?),
        _ => return None,
    };
    Some(asked)
}

// Answers a call behind its name. A frame keeps every key, so those after it are shown.
pub fn on(words: Words<'_>, call: Call, out: &mut Out, st: &mut Station) -> Option<()> {
    let ran = run(st, asked(words, call)?);
    if let Call::Frame = call
        && ran.answer.is_ok()
    {
        replies::frame(out, &st.clocks.keys, &ran.reports);
        return Some(());
    }
    replies::answer(out, ran.answer);
    Some(())
}
