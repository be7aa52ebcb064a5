//! What began, and in which entry.

ghost use Rattle.std.specs.Prelude.{◌≡◌, ◌==◌};
ghost use Rattle.rv_lasting.specs.Tracks.{ended, newest_of};
ghost use Rattle.rv_explained.specs.Explanations.{began_in};

use rv_lasting::track::Begun;

// The newest of an actor.
fn newest_of(begun: &[Begun], actor: usize) -> Option<Begun>
    ensures { result ≡ newest_of actor begun.now }
{
    let [it, begun @ ..] = begun else {
        return None;
    };
    if it.call.actor == actor {
        return Some(*it);
    }
    newest_of(begun, actor)
}

/// The one of these that ends, of an actor, if one's does; they come the newest first.
pub fn ended_in(begun: &[Begun], actor: Option<usize>) -> Option<Begun>
    ensures { result ≡ ended actor begun.now }
{
    match actor {
        Some(actor) => newest_of(begun, actor),
        None => None,
    }
}

/// Whether one of these began by the entry of this number.
pub fn began_in(begun: &[Begun], number: usize) -> bool
    ensures { result ≡ began_in number begun.now }
{
    let [it, begun @ ..] = begun else {
        return false;
    };
    if it.number == number {
        return true;
    }
    began_in(begun, number)
}
