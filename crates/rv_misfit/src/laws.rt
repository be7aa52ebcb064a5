//! What it means that a step never fits, each law on a function that does nothing.

ghost use Rattle.std.specs.Prelude.{◌≡◌, ◌≢◌, ◌≤◌, ℕ, ℤ, List, length, Some, None, Ok, true, false, if◌then◌else◌};
ghost use Rattle.rv_access.specs.declared.change.Change.{Change};
ghost use Rattle.rv_event.specs.Past.{halted, mode};
ghost use Rattle.rv_event.specs.declared.entry.Answer.TheVariants.{BadLine, Halted, Misuse};
ghost use Rattle.rv_event.specs.declared.entry.Mode.TheVariants.{Idle};
ghost use Rattle.rv_event.specs.declared.entry.Request.{Request};
ghost use Rattle.rv_history.specs.Due.{out};
ghost use Rattle.rv_history.specs.Fitting.{call_fits, fits};
ghost use Rattle.rv_history.specs.History.{History, force};
ghost use Rattle.rv_history.specs.Legal.{Legal, line_limit};
ghost use Rattle.rv_history.specs.Steps.{after_change, due_change};
ghost use Rattle.rv_shape.specs.Catalogue.{target};
ghost use Rattle.rv_shape.specs.Shape.{Shape};
ghost use Rattle.rv_step.specs.Lookup.{callee_of, operator};
ghost use Rattle.rv_step.specs.Names.{DottedWord};
ghost use Rattle.rv_step.specs.StepText.{StepWords, step_of};
ghost use Rattle.rv_step.specs.declared.step.Asked.TheVariants as Asks;
ghost use Rattle.rv_misfit.specs.Asked.{IsAsked, IsNumbered, IsOfOneLine};
ghost use Rattle.rv_misfit.specs.Misfits.{misfit_of};
ghost use Rattle.rv_misfit.specs.declared.misfit.Misfit.{Misfit};

/// A request of which it is told fits its actor on no history over these units on which the operator is idle, legal or not.
pub fn told_requests_never_fit()
    ensures { (h : History) (lines actor : ℕ) (step : StepWords) (request : Request) (misfit : Misfit) →
        mode h.shapes operator h.past ≡ Idle → IsAsked h.shapes step actor request →
        misfit_of h.shapes lines step ≡ Some misfit → fits h actor request ≡ false }
{}

/// Each step that is read names a line of the ten, where it names one, as these laws want it.
pub fn read_steps_name_lines_that_there_are()
    ensures { (words : List (List ℕ)) (step : StepWords) → step_of words ≡ Some step → IsNumbered step.asker }
{}

/// On each legal history the operator is idle: it is in no body and waits for nothing.
#[tactic(auto, using(crate::proofs::Operator::legal_idle))]
pub fn the_operator_is_idle()
    ensures { (h : History) → Legal h → mode h.shapes operator h.past ≡ Idle }
{}

/// So on each legal history over these units the answer that is due is `misuse`, which adds no entry.
pub fn told_requests_are_misuse()
    ensures { (h : History) (lines actor : ℕ) (step : StepWords) (request : Request) (misfit : Misfit) →
        Legal h → IsAsked h.shapes step actor request →
        misfit_of h.shapes lines step ≡ Some misfit → out h actor request ≡ Misuse }
{}

/// A change of which it is told is never made, on whatever history with a list of so many lines: the answer that is due is
/// `badline`, or `halted` on a halted host, and the history stays as it is.
pub fn told_changes_are_never_made()
    ensures answer { (h : History) (step : StepWords) (change : Change) (number : ℤ) (misfit : Misfit) →
        step.asked ≡ Asks.Change (Ok change) number → misfit_of h.shapes (length (force h)) step ≡ Some misfit →
        due_change h change ≡ (if halted h.past then Halted else BadLine) }
    ensures unmade { (h : History) (step : StepWords) (change : Change) (number : ℤ) (misfit : Misfit) →
        step.asked ≡ Asks.Change (Ok change) number → misfit_of h.shapes (length (force h)) step ≡ Some misfit →
        after_change h change (due_change h change) ≡ h }
{}

/// No other change of one line, of a list that is no longer than a list may be, is answered `badline`.
pub fn untold_changes_are_no_bad_lines()
    ensures { (h : History) (step : StepWords) (change : Change) (number : ℤ) →
        IsOfOneLine change → length (force h) ≤ line_limit →
        step.asked ≡ Asks.Change (Ok change) number → misfit_of h.shapes (length (force h)) step ≡ None →
        due_change h change ≢ BadLine }
{}

/// A call of names that are loaded, of which nothing is told, has the values that its operation takes: who may call then, and
/// holds nothing, may make it.
#[tactic(auto, using(crate::proofs::Calling::untold_call))]
pub fn untold_calls_have_their_values()
    ensures { (shapes : List Shape) (lines : ℕ) (step : StepWords) (object : DottedWord) (operation : List ℕ)
        (values : List ℤ) (found : ℕ × ℕ) →
        step.asked ≡ Asks.Call object operation values → callee_of shapes object operation ≡ Some found →
        misfit_of shapes lines step ≡ None → call_fits 0 values (target shapes found.0 found.1) ≡ true }
{}
