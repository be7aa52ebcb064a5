//! The pass of a control or of a port, with what it knows of how long the journal lasts.

ghost use Rattle.std.specs.Prelude.{◌≡◌, ◌<◌, true, false, IfOk, IfErr, OnErr, MatchResult};
ghost use Rattle.rv_turn.specs.Faults.{IsFault};
ghost use Rattle.rv_turn.specs.Histories.{Has};
ghost use Rattle.rv_turn.specs.Passes.{Acted, IsWorn, Meets, Parted};
ghost use Rattle.rv_behind.specs.Acting.{Does};
ghost use Rattle.rv_behind.specs.Events.{by};
ghost use Rattle.rv_port.specs.Traces.{IsKnown, IsUnbounded, lasts};

use rv_behind::behind::Behind;
use rv_behind::event::{Ask, Letter, Reply};
use rv_turn::{Note, Pass, SplitFault, Worn};
use std::marker::Model;
use std::sync::Wait;

/// A pass, and whether the journal lasts, as far as is known: whether its first entries were given up before. Contracts see what the
/// pass knows.
pub(crate) struct OwnPass {
    pass: Pass<Behind>,
    // Whether units have an allowance.
    is_bounded: bool,
    is_lasting: bool,
}

impl Model for OwnPass {
    ghost use Rattle.std.specs.Coded.{codes};
    ghost use Rattle.std.specs.Prelude.{◌≡◌, true, false};
    ghost use Rattle.rv_behind.specs.contracts.event.Event as e;
    ghost use Rattle.rv_port.specs.Traces.{IsUnbounded, Passing, lasts};

    ghost Value = { Passing };

    ghost coded = { Prim.hlevel (codes, e.the_row.coded) };

    ghost view = { λ p. p.pass };

    ghost invariant = { λ p. (p.is_lasting ≡ true → lasts p.pass.seen ≡ true) × (p.is_bounded ≡ false → IsUnbounded p.pass.about) };
}

impl Drop for OwnPass {
    // A function of its own, as that of a port.
    fn drop(self) {
        let OwnPass {
            pass: _,
            is_bounded: _,
            is_lasting: _,
        } = self;
    }
}

impl OwnPass {
    /// A pass that knows of no entry that was given up, of a host whose units have an allowance or none.
    pub(crate) fn new(pass: Pass<Behind>, is_bounded: bool) -> OwnPass
        requires { is_bounded ≡ false → IsUnbounded pass.about }
        ensures { result ≡ pass }
    {
        OwnPass {
            pass,
            is_bounded,
            is_lasting: false,
        }
    }

    /// The pass itself.
    pub(crate) fn into_pass(self) -> Pass<Behind>
        ensures { result ≡ self }
    {
        let OwnPass {
            pass,
            is_bounded: _,
            is_lasting: _,
        } = self;
        pass
    }

    /// Whose pass it is.
    pub(crate) fn actor(&self) -> u64
        ensures { result ≡ self.now.actor }
    {
        self.pass.actor()
    }

    /// How many acts it may still make.
    pub(crate) fn left(&self) -> u64
        ensures { result ≡ self.now.left }
    {
        self.pass.left()
    }

    /// Whether it knows that the journal lasts, and that no unit has an allowance: then each Full is one of the journal.
    #[tactic(auto, using(crate::proofs::Lasting::both_known))]
    pub(crate) fn is_lasting(&self) -> bool
        ensures { result ≡ true → IsKnown self.now }
    {
        self.is_lasting && !self.is_bounded
    }

    /// From now on it knows that the journal lasts.
    pub(crate) fn note_lasting(&mut self)
        requires { lasts self.old.seen ≡ true }
        ensures { self.new ≡ self.old }
    {
        self.is_lasting = true;
    }

    /// One act, as of a pass.
    #[tactic(auto, using(crate::proofs::Lasting::act_lasts, crate::proofs::Lasting::act_unbounded))]
    pub(crate) fn act<R: Wait>(&mut self, rt: &R, ask: Ask) -> Result<Reply, Worn>
        ensures { MatchResult
            result
            (λ reply. Acted by Does self.old ask reply self.new)
            (λ _. IsWorn self.old self.new) }
    {
        self.pass.act(rt, ask)
    }

    /// One act with a letter, as of a pass.
    #[tactic(auto, using(crate::proofs::Lasting::act_lasts, crate::proofs::Lasting::act_unbounded))]
    pub(crate) fn send<R: Wait>(&mut self, rt: &R, letter: &mut Letter) -> Result<(), Worn>
        ensures reply { MatchResult
            result
            (λ _. Acted by Does self.old (Ask.Step letter.old.request)
            (Reply.Answered letter.new.answer letter.new.begun letter.new.lent) self.new)
            (λ _. IsWorn self.old self.new) }
        ensures asked { Ask.Step letter.new.request ≡ Ask.Step letter.old.request }
    {
        self.pass.send(rt, letter)
    }

    /// A pass for another actor, as of a first pass. It knows of the journal what this one does.
    #[tactic(auto, using(crate::proofs::Lasting::part_lasts, crate::proofs::Lasting::cut_lasts, crate::proofs::Lasting::part_unbounded, crate::proofs::Lasting::cut_unbounded))]
    pub(crate) fn split(&mut self, actor: u64, acts: u64) -> Result<OwnPass, SplitFault>
        requires first { self.old.first ≡ true }
        requires actor { (0 < actor) × (Has actor self.old.given → ⊥) }
        ensures ok { IfOk result (λ p. Parted by self.old actor acts self.new p) }
        ensures fault { IfErr result (λ f. IsFault self.old.left acts f) }
        ensures err { OnErr result (self.new ≡ self.old) }
    {
        match self.pass.split(actor, acts) {
            Ok(pass) => Ok(OwnPass {
                pass,
                is_bounded: self.is_bounded,
                is_lasting: self.is_lasting,
            }),
            Err(fault) => Err(fault),
        }
    }

    /// What it has seen, as of a pass.
    pub(crate) fn note(&mut self) -> Note<Behind>
        ensures note { (result.turn ≡ self.old.turn) × (result.seen ≡ self.old.seen) }
        ensures same { self.new ≡ self.old }
    {
        self.pass.note()
    }

    /// From now on it has seen what the note tells, as of a pass.
    #[tactic(auto, using(crate::proofs::Lasting::meet_lasts, crate::proofs::Lasting::meet_unbounded))]
    pub(crate) fn meet(&mut self, note: Note<Behind>)
        requires turn { note.turn ≡ self.old.turn }
        ensures meets { Meets by self.old note.seen self.new }
    {
        self.pass.meet(note);
    }
}
