//! Laws of scripts, each on a function that does nothing.

ghost use Rattle.std.specs.Prelude.{◌≡◌, ℕ, List, Option, Bool, false};
ghost use Rattle.rv_history.specs.Legal.{Legal, empty};
ghost use Rattle.rv_history.specs.Limits.{limits_with};
ghost use Rattle.rv_history.specs.Steps.{Steps};
ghost use Rattle.rv_fault.specs.declared.fault.ScriptFault.{ScriptFault};
ghost use Rattle.rv_play.specs.Acts.{Act};
ghost use Rattle.rv_history.specs.Journal.{journal_text};
ghost use Rattle.rv_play.specs.Laws.{commands, answers};
ghost use Rattle.rv_play.specs.Scripted.{Told, Run, Plays, PlaysScript, told_text};
ghost use Rattle.rv_play.specs.Stages.{Stage, start};
ghost use Rattle.rv_play.specs.declared.player.Limits.{Limits};

/// The commands of what is told and their answers are steps of the host, from nothing to the history
/// that they lead to.
#[tactic(auto, using(crate::proofs::Scripting::plays_steps))]
pub fn acts_are_steps()
    ensures { (limits : Limits) → (acts : List Act) → (told : List Told) → (fault : Option ScriptFault) → (last : Stage)
        → Plays (start limits) acts told fault last
        → Steps (empty (limits_with limits.capacity limits.queue)) (commands told) (answers told) last.history }
{}

/// The history that a script leads to is legal.
#[tactic(auto, using(crate::proofs::Scripting::script_legal))]
pub fn scripts_are_legal()
    ensures { (script : List ℕ) → (run : Run) → PlaysScript script run → Legal run.last.history }
{}

/// Of the lines that a script tells, those of recorded answers are its journal, with the names of all
/// its units.
#[tactic(auto, using(crate::proofs::Named::recorded_lines))]
pub fn recorded_lines_are_the_journal()
    ensures { (script : List ℕ) → (run : Run) → PlaysScript script run
        → told_text false run.told ≡ journal_text run.last.history }
{}
