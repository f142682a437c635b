// A thing of the grammar that only calls on the station have: TWEEN.
ghost use Rattle.std.specs.Prelude.{◌≡◌};
ghost use Rattle.text.specs.Words.{read_of};
ghost use Rattle.lines.specs.Things.{tween_at};

use text::words::Words;
use times::tween::Tween;

// A start, a duration and an easing: TWEEN.
#[tactic(auto, unfolding(crate::specs::Things::tween_at))]
pub fn tween(words: &mut Words<'_>) -> Option<Tween>
    ensures { (result, words.new) ≡ read_of tween_at words.old }
{
    Some(Tween {
        start_time: grammar::start(words)?,
        duration: grammar::number(words)?,
        easing: grammar::ease(words)?,
    })
}
