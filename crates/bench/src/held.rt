// The program's own part: what it holds, and which of its parts a call is for. Proved safe, with no equations:
// docs/EXCEPTIONS.md says why.
use crate::holds::{self, Parameters};
use crate::{families, limits, questions, station_calls};
use calls::{curves, floats, lerps, speeds};
use digits::Out;
use names::{Call, call_of};
use station::Station;
use text::words::Words;
use values::clock_speed::ClockSpeed;

// The station, and the parameters of each kind.
#[derive(Clone, Copy)]
pub struct Held {
    pub station: Station,
    pub floats: Parameters<f64>,
    pub speeds: Parameters<ClockSpeed>,
}

impl Held {
    pub fn new() -> Held {
        Held {
            station: Station::new(),
            floats: [None; 16],
            speeds: [None; 16],
        }
    }
}

// A fresh station, and every parameter forgotten; a call only where nothing is behind it. Each part is made anew where
// it lies: all of them at once would be made beside it and copied.
fn renew(words: Words<'_>, out: &mut Out, held: &mut Held) -> Option<()> {
    grammar::end(&words)?;
    held.station = Station::new();
    held.floats = [None; 16];
    held.speeds = [None; 16];
    replies::ok(out);
    Some(())
}

// Puts the answer to a line's name and the words behind it; None where the line is no call.
pub fn call(name: &[u8], words: Words<'_>, out: &mut Out, held: &mut Held) -> Option<()> {
    match call_of(name)? {
        Call::New => renew(words, out, held),
        Call::FloatParameter(c) => holds::on(words, c, out, &mut held.floats, &held.station),
        Call::SpeedParameter(c) => holds::on(words, c, out, &mut held.speeds, &held.station),
        Call::Limit(c) => limits::on(words, c, out, &mut held.station),
        Call::Question(c) => questions::call(words, c, out, &held.station),
        Call::Report => questions::report(words, out, &held.station.clocks),
        Call::Double(c) => floats::call(words, c, out),
        Call::Curve(c) => curves::call(words, c, out),
        Call::Speed(c) => speeds::call(words, c, out),
        Call::SpeedLerp => lerps::call::<ClockSpeed>(words, out),
        Call::Time(c) => families::instants::call(words, c, out),
        Call::MapFloat => families::mappings::map::<f64>(words, out),
        Call::MapSpeed => families::mappings::map::<ClockSpeed>(words, out),
        Call::Map(c) => families::mappings::map_op(words, c, out),
        Call::Value(c) => families::mappings::value_op(words, c, out),
        c => station_calls::on(words, c, out, &mut held.station),
    }
}
