// The calls map.* and val.*, without val.raw, which needs modulators.
use answers::Shown;
use digits::Out;
use grammar::Spelled;
use names::OutputCall;
use text::words::Words;
use values::value::{Op, try_map_output, try_value_output};

pub fn map<T: Spelled + Shown>(mut words: Words<'_>, out: &mut Out) -> Option<()> {
    let m = grammar::mapping::<T>(&mut words)?;
    let x = grammar::float(&mut words)?;
    grammar::end(&words)?;
    answers::reply(out, m.try_map(x));
    Some(())
}

// The operation that a call names, with the operand that is read; a negation has none. Nothing stands behind it.
fn operation(mut words: Words<'_>, call: OutputCall) -> Option<Op> {
    let op = match call {
        OutputCall::Add => Op::Add(grammar::float(&mut words)?),
        OutputCall::Sub => Op::Sub(grammar::float(&mut words)?),
        OutputCall::Mul => Op::Mul(grammar::float(&mut words)?),
        OutputCall::Div => Op::Div(grammar::float(&mut words)?),
        OutputCall::Rem => Op::Rem(grammar::float(&mut words)?),
        OutputCall::Neg => Op::Neg,
    };
    grammar::end(&words)?;
    Some(op)
}

// A mapping's and a value's call differ in the entry, and a generic one would be no plainer than the two.
pub fn map_op(mut words: Words<'_>, call: OutputCall, out: &mut Out) -> Option<()> {
    let m = grammar::mapping::<f64>(&mut words)?;
    let op = operation(words, call)?;
    answers::reply(out, try_map_output(m, op));
    Some(())
}

pub fn value_op(mut words: Words<'_>, call: OutputCall, out: &mut Out) -> Option<()> {
    let v = grammar::value::<f64>(&mut words)?;
    let op = operation(words, call)?;
    answers::reply(out, try_value_output(v, op));
    Some(())
}
