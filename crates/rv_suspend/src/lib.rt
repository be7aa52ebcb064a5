//! A suspension object of Ada.Synchronous_Task_Control (ISO/IEC 8652:2012, D.10).
#![tactic(auto)]

ghost use Rattle.std.specs.Prelude.{◌≡◌, None, Some, false, if◌then◌else◌, is_some, not};

use std::marker::Model;

/// A suspension object: True or False, with at most one actor that waits until it is True.
///
/// Contracts see its state, who waits, and the first that was released and not collected since.
#[derive(Drop, Debug)]
pub struct SuspensionObject {
    // Whether it is True.
    state: bool,
    // The actor that waits.
    waiter: Option<usize>,
    // The actor that is released, and not collected yet.
    released: Option<usize>,
}

impl Model for SuspensionObject {
    ghost use Rattle.rv_suspend.specs.Suspension.{Suspension, IsHeldBack};

    ghost Value = { Suspension };

    ghost view = { λ s. record { state = s.state; waiter = s.waiter; released = s.released } };

    ghost invariant = { λ s. IsHeldBack s.state s.waiter };
}

impl SuspensionObject {
    ghost use Rattle.rv_suspend.specs.Suspension.{initially, IsHeldBack};

    /// An object that is False, and on which nobody waits.
    pub fn new() -> SuspensionObject
        ensures { result ≡ initially }
    {
        SuspensionObject {
            state: false,
            waiter: None,
            released: None,
        }
    }

    /// Whether the object is True (Current_State).
    pub fn state(&self) -> bool
        ensures { result ≡ self.now.state }
    {
        self.state
    }

    /// The actor that waits, or `None` where nobody does. Where one waits, the object is False.
    pub fn waiter(&self) -> Option<usize>
        ensures value { result ≡ self.now.waiter }
        ensures held_back { IsHeldBack self.now.state self.now.waiter }
    {
        self.waiter
    }

    /// Set_True: releases the actor that waits, and the object stays False; where nobody waits, it is True. Where one
    /// that was released before wasn't collected yet, that one stays to be collected, and the other is not kept.
    pub fn set_true(&mut self)
        ensures state { self.new.state ≡ not (is_some self.old.waiter) }
        ensures waiter { self.new.waiter ≡ None }
        ensures released { self.new.released ≡ (if is_some self.old.released then self.old.released else self.old.waiter) }
    {
        self.state = self.waiter.is_none();
        if self.released.is_none() {
            self.released = self.waiter;
        }
        self.waiter = None;
    }

    /// Set_False: the object is False. Who waits goes on waiting.
    pub fn set_false(&mut self)
        ensures { self.new ≡ record self.old { state = false } }
    {
        self.state = false;
    }

    /// Suspend_Until_True of an actor, by its number, where nobody waits: whether it goes on at once, since the object
    /// was True. Else it waits. The object is then False in both cases.
    pub fn wait(&mut self, actor: usize) -> bool
        requires { self.old.waiter ≡ None }
        ensures goes_on { result ≡ self.old.state }
        ensures state { self.new.state ≡ false }
        ensures waiter { self.new.waiter ≡ (if self.old.state then None else Some actor) }
        ensures released { self.new.released ≡ self.old.released }
    {
        if self.state {
            self.state = false;
            return true;
        }
        self.waiter = Some(actor);
        false
    }

    /// Takes the actor that was released, or gives `None` where nobody was since the last call.
    pub fn collect(&mut self) -> Option<usize>
        ensures actor { result ≡ self.old.released }
        ensures rest { self.new ≡ record self.old { released = None } }
    {
        let actor = self.released;
        self.released = None;
        actor
    }
}
