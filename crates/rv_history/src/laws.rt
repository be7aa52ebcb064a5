//! Laws over histories, each on a function that does nothing.

pub mod allowance;
pub mod bodies;
pub mod clock;
pub mod closing;
pub mod journal;
pub mod loads;
pub mod orderly;
pub mod queues;
pub mod refusals;
pub mod room;
pub mod settling;
pub mod starts;
pub mod steps;
pub mod suspension;
pub mod words;

ghost use Rattle.rv_history.specs.Rows as rows;

/// Worked examples follow from the definitions by computation.
pub fn worked_rows()
    ensures no_list { rows.NoList }
    ensures denied_call_granted_function { rows.DeniedCallGrantedFunction }
    ensures equal_and_higher_priority { rows.EqualAndHigherPriority }
    ensures denial_before_ceiling { rows.DenialBeforeCeiling }
    ensures sharing_and_exclusion { rows.SharingAndExclusion }
    ensures full_queue { rows.FullQueue }
    ensures second_caller_while_procedure_runs { rows.SecondCallerWhileProcedureRuns }
    ensures grant_taken_away_while_queued { rows.GrantTakenAwayWhileQueued }
    ensures grant_taken_away_after_hand_over { rows.GrantTakenAwayAfterHandOver }
    ensures entry_call_inside_action { rows.EntryCallInsideAction }
    ensures subject_of_nested_call { rows.SubjectOfNestedCall }
    ensures full_and_halted { rows.FullAndHalted }
    ensures interrupts { rows.Interrupts }
    ensures suspension { rows.SuspendedAndReleased }
    ensures list_edits { rows.ListEdits }
    ensures delay { rows.Delay }
    ensures first_dropped_second_handed_over { rows.FirstDroppedSecondHandedOver }
    ensures settled_after_the_halt { rows.SettledAfterTheHalt }
{}
