// The names of the calls of docs/BENCH.md, and the call that each is: one table, a row for each name. A new call is
// one row here, beside those of its first letter, and one in specs/Names.antt; `together` counts it.
#![tactic(auto)]

ghost use Rattle.std.specs.Prelude.{◌≡◌, ◌≤◌};
ghost use Rattle.names.specs.Names.{Enough, call_of};

// The calls on one clock, by its id alone.
#[derive(Clone, Copy)]
pub enum OneClock {
    Drop,
    Start,
    Stop,
    Reset,
    Time,
    Ticking,
    GetSpeed,
}

// The calls on one modulator, whose first argument is its id.
#[derive(Clone, Copy)]
pub enum OneModulator {
    Set,
    Freq,
    Amp,
    Off,
    Wave,
    Phase,
    Value,
    Drop,
}

// The calls that put a table where no run comes in time.
#[derive(Clone, Copy)]
pub enum LimitCall {
    Preset,
    ClockGen,
    ModGen,
}

// The calls that ask the clocks and the modulators.
#[derive(Clone, Copy)]
pub enum QuestionCall {
    When,
    ValRaw,
    SvalRaw,
    StartUp,
}

// The calls on one of the program's parameters.
#[derive(Clone, Copy)]
pub enum ParameterCall {
    New,
    Set,
    Up,
    Val,
}

#[derive(Clone, Copy)]
pub enum TimeCall {
    FromU,
    FromF,
    AddF,
    SubF,
    AddU,
    SubU,
    Cmp,
}

// The arithmetic on an output.
#[derive(Clone, Copy)]
pub enum OutputCall {
    Add,
    Sub,
    Mul,
    Div,
    Rem,
    Neg,
}

#[derive(Clone, Copy)]
pub enum DoubleCall {
    Trunc,
    Fract,
    Ceil,
    Abs,
    Clamp,
}

#[derive(Clone, Copy)]
pub enum CurveCall {
    Ease,
    Lerp,
    Wave,
    DurSecs,
    TweenDefault,
}

// The unit that a speed is read in.
#[derive(Clone, Copy)]
pub enum SpeedCall {
    Spt,
    Tps,
    Tpm,
}

// Every call, in families that one function answers each. An enum and no function in the table: a lookup would hand out
// a function pointer, of which a caller's proof knows nothing.
#[derive(Clone, Copy)]
pub enum Call {
    New,
    Frame,
    AddClock,
    SetClockSpeed,
    OneClock(OneClock),
    AddTweener,
    AddLfo,
    OneModulator(OneModulator),
    Limit(LimitCall),
    Report,
    Question(QuestionCall),
    FloatParameter(ParameterCall),
    SpeedParameter(ParameterCall),
    Time(TimeCall),
    MapFloat,
    MapSpeed,
    Map(OutputCall),
    Value(OutputCall),
    Double(DoubleCall),
    Curve(CurveCall),
    SpeedLerp,
    Speed(SpeedCall),
}

// A row for each name. No name stands twice: `once` in proofs/Once.antt.
const CALLS: [(&[u8], Call); 72] = [
    (b"clock.add", Call::AddClock),
    (b"clock.drop", Call::OneClock(OneClock::Drop)),
    (b"clock.start", Call::OneClock(OneClock::Start)),
    (b"clock.stop", Call::OneClock(OneClock::Stop)),
    (b"clock.reset", Call::OneClock(OneClock::Reset)),
    (b"clock.speed", Call::SetClockSpeed),
    (b"clock.time", Call::OneClock(OneClock::Time)),
    (b"clock.ticking", Call::OneClock(OneClock::Ticking)),
    (b"clock.getspeed", Call::OneClock(OneClock::GetSpeed)),
    (b"clock.report", Call::Report),
    (b"clock.preset", Call::Limit(LimitCall::Preset)),
    (b"clock.gen", Call::Limit(LimitCall::ClockGen)),
    (b"dur.secs", Call::Curve(CurveCall::DurSecs)),
    (b"ease", Call::Curve(CurveCall::Ease)),
    (b"f.trunc", Call::Double(DoubleCall::Trunc)),
    (b"f.fract", Call::Double(DoubleCall::Fract)),
    (b"f.ceil", Call::Double(DoubleCall::Ceil)),
    (b"f.abs", Call::Double(DoubleCall::Abs)),
    (b"f.clamp", Call::Double(DoubleCall::Clamp)),
    (b"fp.new", Call::FloatParameter(ParameterCall::New)),
    (b"fp.set", Call::FloatParameter(ParameterCall::Set)),
    (b"fp.up", Call::FloatParameter(ParameterCall::Up)),
    (b"fp.val", Call::FloatParameter(ParameterCall::Val)),
    (b"frame", Call::Frame),
    (b"lerp", Call::Curve(CurveCall::Lerp)),
    (b"lfo.add", Call::AddLfo),
    (b"lfo.freq", Call::OneModulator(OneModulator::Freq)),
    (b"lfo.amp", Call::OneModulator(OneModulator::Amp)),
    (b"lfo.off", Call::OneModulator(OneModulator::Off)),
    (b"lfo.wave", Call::OneModulator(OneModulator::Wave)),
    (b"lfo.phase", Call::OneModulator(OneModulator::Phase)),
    (b"map.f", Call::MapFloat),
    (b"map.s", Call::MapSpeed),
    (b"map.add", Call::Map(OutputCall::Add)),
    (b"map.sub", Call::Map(OutputCall::Sub)),
    (b"map.mul", Call::Map(OutputCall::Mul)),
    (b"map.div", Call::Map(OutputCall::Div)),
    (b"map.rem", Call::Map(OutputCall::Rem)),
    (b"map.neg", Call::Map(OutputCall::Neg)),
    (b"mod.value", Call::OneModulator(OneModulator::Value)),
    (b"mod.drop", Call::OneModulator(OneModulator::Drop)),
    (b"mod.gen", Call::Limit(LimitCall::ModGen)),
    (b"new", Call::New),
    (b"sp.new", Call::SpeedParameter(ParameterCall::New)),
    (b"sp.set", Call::SpeedParameter(ParameterCall::Set)),
    (b"sp.up", Call::SpeedParameter(ParameterCall::Up)),
    (b"sp.val", Call::SpeedParameter(ParameterCall::Val)),
    (b"speed.lerp", Call::SpeedLerp),
    (b"speed.spt", Call::Speed(SpeedCall::Spt)),
    (b"speed.tps", Call::Speed(SpeedCall::Tps)),
    (b"speed.tpm", Call::Speed(SpeedCall::Tpm)),
    (b"start.up", Call::Question(QuestionCall::StartUp)),
    (b"sval.raw", Call::Question(QuestionCall::SvalRaw)),
    (b"time.fromu", Call::Time(TimeCall::FromU)),
    (b"time.fromf", Call::Time(TimeCall::FromF)),
    (b"time.addf", Call::Time(TimeCall::AddF)),
    (b"time.subf", Call::Time(TimeCall::SubF)),
    (b"time.addu", Call::Time(TimeCall::AddU)),
    (b"time.subu", Call::Time(TimeCall::SubU)),
    (b"time.cmp", Call::Time(TimeCall::Cmp)),
    (b"tween.default", Call::Curve(CurveCall::TweenDefault)),
    (b"tweener.add", Call::AddTweener),
    (b"tweener.set", Call::OneModulator(OneModulator::Set)),
    (b"val.add", Call::Value(OutputCall::Add)),
    (b"val.sub", Call::Value(OutputCall::Sub)),
    (b"val.mul", Call::Value(OutputCall::Mul)),
    (b"val.div", Call::Value(OutputCall::Div)),
    (b"val.rem", Call::Value(OutputCall::Rem)),
    (b"val.neg", Call::Value(OutputCall::Neg)),
    (b"val.raw", Call::Question(QuestionCall::ValRaw)),
    (b"wave", Call::Curve(CurveCall::Wave)),
    (b"when", Call::Question(QuestionCall::When)),
];

// Where the rows of the names that begin with a byte stand in the table, from a place up to another. They stand
// together, so a word is compared with those of its first letter alone. Where no name begins so, no row is left.
fn together(first: u8) -> (usize, usize)
    ensures in_order { result.0 ≤ result.1 }
    ensures within { result.1 ≤ 72 }
    ensures enough { Enough first result.0 result.1 }
{
    match first {
        b'c' => (0, 12),
        b'd' => (12, 13),
        b'e' => (13, 14),
        b'f' => (14, 24),
        b'l' => (24, 31),
        b'm' => (31, 42),
        b'n' => (42, 43),
        b's' => (43, 53),
        b't' => (53, 63),
        b'v' => (63, 70),
        b'w' => (70, 72),
        _ => (0, 0),
    }
}

// The call that a word names; none where it names none.
pub fn call_of(word: &[u8]) -> Option<Call>
    ensures { result ≡ call_of word.now }
{
    let (from, to) = together(*word.first()?);
    let row = CALLS[from..to].iter().find(|row| word == row.0)?;
    Some(row.1)
}
