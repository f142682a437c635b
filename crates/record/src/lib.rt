// One line of a recording, without its LF: what it says behind what the record's earlier lines said. RULES, record.
#![tactic(auto)]

pub mod field;

ghost use Rattle.std.specs.Prelude.{◌≡◌};
ghost use Rattle.record.specs.Records.{op_of, up_most, limits_of, judge_of};

use crate::field::{decimal_behind, hex_behind, is};

// The largest numbers of a slot, of a generation and of an argument.
const SLOT: u32 = 15;

const GENERATION: u32 = 0xffff_ffff;

const ARG: u64 = 0xffff_ffff_ffff_ffff;

#[derive(Clone, Copy)]
pub enum Op {
    Add,
    Drop,
    Start,
    Stop,
    Reset,
    Speed,
    Frame,
}

#[derive(Clone, Copy)]
pub struct Record {
    pub op: Op,
    pub slot: u32,
    pub generation: u32,
    pub arg: u64,
}

// Which line comes next, and what the lines before it said.
#[derive(Clone, Copy)]
pub enum Part {
    Op,
    Slot(Op),
    Generation(Op, u32),
    Arg(Op, u32, u32),
}

// What a line makes of a part: the next one, the whole record, or nothing, since the line is bad.
#[derive(Clone, Copy)]
pub enum Judged {
    Next(Part),
    Whole(Record),
    Bad,
}

// The most that each number of a record may be.
#[derive(Clone, Copy)]
struct Limits {
    slot: u32,
    generation: u32,
    arg: u64,
}

const OPS: [(&[u8], Op); 7] = [
    (b"op=add", Op::Add),
    (b"op=drop", Op::Drop),
    (b"op=start", Op::Start),
    (b"op=stop", Op::Stop),
    (b"op=reset", Op::Reset),
    (b"op=speed", Op::Speed),
    (b"op=frame", Op::Frame),
];

fn op_line(line: &[u8]) -> Option<Op>
    ensures { result ≡ op_of line.now }
{
    let row = OPS.iter().find(|row| is(line, row.0))?;
    Some(row.1)
}

fn up_most(slot: u32, generation: u32, arg: u64) -> Limits
    ensures { result ≡ up_most slot generation arg }
{
    Limits {
        slot,
        generation,
        arg,
    }
}

fn limits_of(o: Op) -> Limits
    ensures { result ≡ limits_of o }
{
    match o {
        Op::Add | Op::Speed => up_most(SLOT, GENERATION, ARG),
        Op::Drop | Op::Start | Op::Stop | Op::Reset => up_most(SLOT, GENERATION, 0),
        Op::Frame => up_most(0, 0, ARG),
    }
}

#[tactic(auto, unfolding(crate::specs::Records::judge_of))]
pub fn judge(part: Part, line: &[u8]) -> Judged
    ensures { result ≡ judge_of part line.now }
{
    match part {
        Part::Op => match op_line(line) {
            Some(o) => Judged::Next(Part::Slot(o)),
            None => Judged::Bad,
        },
        Part::Slot(o) => match decimal_behind(line, b"slot=", limits_of(o).slot) {
            Some(s) => Judged::Next(Part::Generation(o, s)),
            None => Judged::Bad,
        },
        Part::Generation(o, s) => match decimal_behind(line, b"gen=", limits_of(o).generation) {
            Some(g) => Judged::Next(Part::Arg(o, s, g)),
            None => Judged::Bad,
        },
        Part::Arg(o, s, g) => match hex_behind(line, b"arg=", limits_of(o).arg) {
            Some(a) => Judged::Whole(Record {
                op: o,
                slot: s,
                generation: g,
                arg: a,
            }),
            None => Judged::Bad,
        },
    }
}
