// A call on the whole station: a clock's command, a modulator's command or a frame goes in, and what it answers comes
// back. The bench drives its station through here; a replay has its own way to the same calls.
#![tactic(auto)]

ghost use Rattle.std.specs.Prelude.{◌≡◌};
ghost use Rattle.commands.specs.Answers.{told_answer};
ghost use Rattle.run.specs.Runs.{told, reports_of, after};

use commands::CallAnswer;
use commands::clock_command::{ClockCommand, run_clock};
use commands::modulator_command::{ModulatorCommand, run_modulator};
use judge::Refusal;
use station::Station;

// A call as a value: the theorems on calls (`refusal_numbered`) and on runs take it apart by its case.
#[derive(Clone, Copy)]
pub enum Call {
    Clock(ClockCommand),
    Modulator(ModulatorCommand),
    Frame(f64),
}

// What a call answers, and what each slot's clock reported: only a frame has clocks report.
#[derive(Clone, Copy)]
pub struct Ran {
    pub answer: Result<CallAnswer, Refusal>,
    pub reports: [Option<u64>; 16],
}

// A refused call leaves the station.
pub fn run(st: &mut Station, c: Call) -> Ran
    ensures { (told_answer result.answer ≡ told st.old c) × (result.reports ≡ reports_of st.old c) × (st.new ≡ after st.old c) }
{
    let mut reports = [None; 16];
    let answer = match c {
        Call::Clock(k) => run_clock(&mut st.clocks, k),
        Call::Modulator(k) => run_modulator(&mut st.modulators, k),
        // A `map` over the frame's answer was tried, and its goal stayed open.
        Call::Frame(dt) => match st.frame(dt) {
            Ok(told) => {
                reports = told;
                Ok(CallAnswer::Done)
            }
            Err(refusal) => Err(refusal),
        },
    };
    Ran { answer, reports }
}
