//! The values that a turn can be made of.
ghost use Rattle.std.specs.Prelude.{◌≡◌, ℕ, List, length};
ghost use Rattle.rv_turn.specs.Histories.{Adds};

/// A value with a history, which each act leaves as it is or makes longer by one entry of its
/// actor.
pub trait Counted: Drop {
    /// What an actor asks.
    type Ask: Drop;

    /// What it is answered.
    type Reply: Drop;

    /// An ask with room for its reply, where both are too large to be moved.
    type Letter;

    /// One recorded act. Only proofs see it.
    type Entry;

    /// What no act changes, and an answer may depend on, as a capacity. Only proofs see it.
    type About;

    /// The history that the value stands for, oldest entry first.
    ghost history: { Self → List Self.Entry };

    /// What no act changes.
    ghost about: { Self → Self.About };

    /// The actor of an entry.
    ghost actor_of: { Self.Entry → ℕ };

    /// The due answer: of what no act changes, the history before, the actor, the ask, the reply
    /// and the history after.
    ghost answers: { Self.About → List Self.Entry → ℕ → Self.Ask → Self.Reply → List Self.Entry
        → Type 0 };

    /// What a letter asks.
    ghost asked: { Self.Letter → Self.Ask };

    /// What it is answered, once it is.
    ghost replied: { Self.Letter → Self.Reply };

    /// The law: an act adds no entry, or one of its actor.
    ghost adds: { (about : Self.About) (before : List Self.Entry) (actor : ℕ)
        (ask : Self.Ask) (reply : Self.Reply) (after : List Self.Entry)
        → answers about before actor ask reply after → Adds actor_of before actor after };

    /// One act of the actor.
    fn act(&mut self, actor: u64, ask: Self::Ask) -> Self::Reply
        ensures answer { answers (about self.old) (history self.old) actor ask result
            (history self.new) }
        ensures about { about self.new ≡ about self.old };

    /// One act of the actor that a letter asks for, and that is answered there.
    fn answer(&mut self, actor: u64, letter: &mut Self::Letter)
        ensures answer { answers (about self.old) (history self.old) actor (asked letter.old)
            (replied letter.new) (history self.new) }
        ensures asked { asked letter.new ≡ asked letter.old }
        ensures about { about self.new ≡ about self.old };

    /// How many entries the history has.
    fn count(&self) -> u64
        ensures { result ≡ length (history self.now) };
}
