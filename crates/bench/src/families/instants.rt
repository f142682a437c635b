// The calls time.*.
use digits::Out;
use judge::Refusal;
use names::TimeCall;
use std::cmp::Ordering;
use text::words::Words;
use times::time::{
    ClockId, ClockTime, from_ticks_u64, try_add_f64, try_add_u64, try_from_ticks_f64,
    try_partial_cmp, try_sub_f64, try_sub_u64,
};

// A time that is written without its clock has this one.
const NO_CLOCK: ClockId = ClockId {
    slot: 0,
    generation: 0,
};

// The time that a call gives. Where it is refused the line is a call all the same.
fn time(mut words: Words<'_>, call: TimeCall) -> Option<Result<ClockTime, Refusal>> {
    let told = match call {
        TimeCall::FromU => Ok(from_ticks_u64(NO_CLOCK, grammar::number(&mut words)?)),
        TimeCall::FromF => try_from_ticks_f64(NO_CLOCK, grammar::float(&mut words)?),
        TimeCall::AddF => {
            let t = grammar::time(&mut words, NO_CLOCK)?;
            try_add_f64(t, grammar::float(&mut words)?)
        }
        TimeCall::SubF => {
            let t = grammar::time(&mut words, NO_CLOCK)?;
            try_sub_f64(t, grammar::float(&mut words)?)
        }
        TimeCall::AddU => {
            let t = grammar::time(&mut words, NO_CLOCK)?;
            try_add_u64(t, grammar::number(&mut words)?)
        }
        TimeCall::SubU => {
            let t = grammar::time(&mut words, NO_CLOCK)?;
            try_sub_u64(t, grammar::number(&mut words)?)
        }
        TimeCall::Cmp => return None,
    };
    grammar::end(&words)?;
    Some(told)
}

fn cmp(mut words: Words<'_>, out: &mut Out) -> Option<()> {
    let a = grammar::clock_time(&mut words)?;
    let b = grammar::clock_time(&mut words)?;
    grammar::end(&words)?;
    match try_partial_cmp(a, b) {
        Ok(Some(Ordering::Less)) => out.put(b"lt\n"),
        Ok(Some(Ordering::Equal)) => out.put(b"eq\n"),
        Ok(Some(Ordering::Greater)) => out.put(b"gt\n"),
        Ok(None) => out.put(b"none\n"),
        Err(r) => answers::refused(out, r),
    }
    Some(())
}

pub fn call(words: Words<'_>, call: TimeCall, out: &mut Out) -> Option<()> {
    if let TimeCall::Cmp = call {
        return cmp(words, out);
    }
    answers::reply(out, time(words, call)?);
    Some(())
}
