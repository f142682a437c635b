// The program's own part: the calls fp.* and sp.*, on the parameters that it holds, 16 of each kind. Proved safe, with
// no equations: docs/EXCEPTIONS.md says why.
use answers::Shown;
use digits::Out;
use grammar::Spelled;
use lines::things::tween;
use names::ParameterCall;
use parameter::Parameter;
use station::Station;
use text::words::Words;

// None where no accepted call has made the parameter.
pub type Parameters<T> = [Option<Parameter<T>>; 16];

// A parameter that a line makes; the one before it stays where that is refused.
fn make<T: Spelled>(
    mut words: Words<'_>,
    out: &mut Out,
    slot: &mut Option<Parameter<T>>,
) -> Option<()> {
    let value = grammar::value::<T>(&mut words)?;
    let default = T::read(&mut words)?;
    grammar::end(&words)?;
    match Parameter::try_new(value, default) {
        Ok(p) => {
            *slot = Some(p);
            replies::ok(out);
        }
        Err(r) => answers::refused(out, r),
    }
    Some(())
}

fn set<T: Spelled>(mut words: Words<'_>, out: &mut Out, p: &mut Parameter<T>) -> Option<()> {
    let target = grammar::value::<T>(&mut words)?;
    let w = tween(&mut words)?;
    grammar::end(&words)?;
    replies::done(out, p.try_set(target, w));
    Some(())
}

// A parameter's value, and the line's end.
fn value<T: Shown>(out: &mut Out, p: &Parameter<T>) {
    p.raw.show(out);
    out.end();
}

fn update<T: Spelled + Shown>(
    mut words: Words<'_>,
    out: &mut Out,
    p: &mut Parameter<T>,
    st: &Station,
) -> Option<()> {
    let dt = grammar::float(&mut words)?;
    grammar::end(&words)?;
    match st.info().try_update(p, dt) {
        Ok(finished) => {
            out.flag(finished);
            out.put(b" ");
            value(out, p);
        }
        Err(r) => answers::refused(out, r),
    }
    Some(())
}

fn read<T: Shown>(words: Words<'_>, out: &mut Out, p: &Parameter<T>) -> Option<()> {
    grammar::end(&words)?;
    value(out, p);
    Some(())
}

// Answers a call on the parameter that the line names, behind the call's name. One that is not made takes only `new`.
pub fn on<T: Spelled + Shown>(
    mut words: Words<'_>,
    call: ParameterCall,
    out: &mut Out,
    held: &mut Parameters<T>,
    st: &Station,
) -> Option<()> {
    let k = grammar::number(&mut words)?;
    let slot = held.get_mut(k as usize)?;
    match call {
        ParameterCall::New => make(words, out, slot),
        ParameterCall::Set => set(words, out, slot.as_mut()?),
        ParameterCall::Up => update(words, out, slot.as_mut()?, st),
        ParameterCall::Val => read(words, out, slot.as_ref()?),
    }
}
