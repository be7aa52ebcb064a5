//! Protected actions, and what they make of an object.

ghost use Rattle.std.specs.Prelude.{◌≡◌, ◌<◌, ◌∷◌, ◌||◌, drop, false, length, not};
ghost use Rattle.rv_object.specs.Actions.{IsCounted, actions_of, excludes, is_unsettled};

/// A protected action, under way or asked for (ISO/IEC 8652:2012, 9.5.1).
///
/// The actor of a shared action isn't kept: an object has to know how many functions are in it, not whose.
#[derive(Clone, Copy, PartialEq, Eq, Debug)]
pub enum Action {
    /// A function's: concurrent read-only access.
    Shared,
    /// A procedure's, an entry body's or a handler's: exclusive read-write access of this actor.
    Exclusive(usize),
}

/// Who is in a protected action on an object.
#[derive(Clone, Copy, PartialEq, Eq, Debug)]
pub enum State {
    /// Nobody.
    Free,
    /// So many functions, at least one.
    Readers(usize),
    /// This actor alone, in a procedure, an entry body or a handler.
    Writer(usize),
    /// Nobody, and nobody may be before its queue has been served on (own).
    Settling,
}

impl State {
    /// Whether an action may start. A state of readers must count at least one.
    pub(crate) fn admits(self, action: Action) -> bool
        requires { IsCounted self }
        ensures { result ≡ not (excludes (actions_of self) action || is_unsettled self) }
    {
        match (self, action) {
            (State::Free, _) => true,
            (State::Readers(_), Action::Shared) => true,
            _ => false,
        }
    }

    /// The state once an action has started, which must be one that may start, with fewer than `usize::MAX` under way.
    /// A state of readers must count at least one.
    pub(crate) fn started(self, action: Action) -> State
        requires counted { IsCounted self }
        requires free { excludes (actions_of self) action ≡ false }
        requires countable { length (actions_of self) < usize.MAX }
        ensures actions { actions_of result ≡ action ∷ actions_of self }
        ensures settled { is_unsettled result ≡ false }
        ensures counted { IsCounted result }
    {
        match (action, self) {
            (Action::Shared, State::Readers(count)) => State::Readers(count + 1),
            (Action::Shared, _) => State::Readers(1),
            (Action::Exclusive(actor), _) => State::Writer(actor),
        }
    }

    /// The state once an action has finished; a free one stays free.
    pub(crate) fn finished(self) -> State
        ensures actions { actions_of result ≡ drop 1 (actions_of self) }
        ensures settled { is_unsettled result ≡ false }
        ensures counted { IsCounted result }
    {
        match self {
            State::Readers(count) if 1 < count => State::Readers(count - 1),
            _ => State::Free,
        }
    }

    /// The state once the queue has been served on.
    pub(crate) fn settled(self) -> State
        requires { IsCounted self }
        ensures actions { actions_of result ≡ actions_of self }
        ensures settled { is_unsettled result ≡ false }
        ensures counted { IsCounted result }
    {
        match self {
            State::Settling => State::Free,
            _ => self,
        }
    }
}
