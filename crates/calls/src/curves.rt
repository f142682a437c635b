// The calls ease, lerp and wave, and dur.secs and tween.default.
ghost use Rattle.std.specs.Prelude.{◌≡◌};
ghost use Rattle.digits.specs.Outs.{put_in};
ghost use Rattle.digits.specs.Puts.{line_of};
ghost use Rattle.calls.specs.Calls.{answered, tween_text, ease_reply, wave_reply, secs_reply, default_reply, curves_of};

use crate::lerps;
use digits::Out;
use names::CurveCall;
use text::words::Words;
use times::tween::Tween;
use times::{duration, tween};

#[tactic(auto, unfolding(crate::specs::Calls::ease_reply))]
fn ease(mut words: Words<'_>, out: &mut Out) -> Option<()>
    ensures { record { told = result; out = out.new } ≡ answered out.old (ease_reply words.entry.line.now words.entry.at) }
{
    let e = grammar::ease(&mut words)?;
    let x = grammar::float(&mut words)?;
    grammar::end(&words)?;
    answers::reply(out, tween::try_apply(e, x));
    Some(())
}

#[tactic(auto, unfolding(crate::specs::Calls::wave_reply))]
fn wave(mut words: Words<'_>, out: &mut Out) -> Option<()>
    ensures { record { told = result; out = out.new } ≡ answered out.old (wave_reply words.entry.line.now words.entry.at) }
{
    let w = grammar::wave(&mut words)?;
    let phase = grammar::float(&mut words)?;
    grammar::end(&words)?;
    answers::reply(out, waveform::try_wave_value(w, phase));
    Some(())
}

#[tactic(auto, unfolding(crate::specs::Calls::secs_reply))]
fn secs(mut words: Words<'_>, out: &mut Out) -> Option<()>
    ensures { record { told = result; out = out.new } ≡ answered out.old (secs_reply words.entry.line.now words.entry.at) }
{
    let ns = grammar::number(&mut words)?;
    grammar::end(&words)?;
    answers::reply(out, duration::try_as_secs_f64(ns));
    Some(())
}

// A whole answer: START NS EASE.
fn tween(out: &mut Out, t: Tween)
    ensures { out.new ≡ put_in out.old (line_of (tween_text t)) }
{
    answers::start(out, t.start_time);
    out.put(b" ");
    out.number(t.duration);
    out.put(b" ");
    answers::ease(out, t.easing);
    out.end();
}

#[tactic(auto, unfolding(crate::specs::Calls::default_reply))]
fn default_tween(words: Words<'_>, out: &mut Out) -> Option<()>
    ensures { record { told = result; out = out.new } ≡ answered out.old (default_reply words.entry.line.now words.entry.at) }
{
    grammar::end(&words)?;
    tween(out, tween::default_tween());
    Some(())
}

#[tactic(auto, unfolding(crate::specs::Calls::curves_of))]
pub fn call(words: Words<'_>, call: CurveCall, out: &mut Out) -> Option<()>
    ensures { record { told = result; out = out.new } ≡ answered out.old (curves_of words.entry.line.now words.entry.at call) }
{
    match call {
        CurveCall::Ease => ease(words, out),
        CurveCall::Lerp => lerps::call::<f64>(words, out),
        CurveCall::Wave => wave(words, out),
        CurveCall::DurSecs => secs(words, out),
        CurveCall::TweenDefault => default_tween(words, out),
    }
}
