//! Restrictions, and where they are broken.

ghost use Rattle.std.specs.Prelude.{◌≡◌};
ghost use Rattle.rv_restrict.specs.Found.{row_number, precedes};

use std::fmt;

/// A restriction of the profile Ravenscar (ISO/IEC 8652:2012, D.13) that a unit's text alone can break.
#[derive(Clone, Copy, PartialEq, Eq, Debug, Drop)]
pub enum Restriction {
    NoAbortStatements,
    NoRequeueStatements,
    NoSelectStatements,
    NoRelativeDelay,
    NoLocalProtectedObjects,
    NoTaskHierarchy,
    MaxProtectedEntries,
    MaxTaskEntries,
    SimpleBarriers,
    NoDynamicPriorities,
    NoDependence,
}

impl Restriction {
    // Its row among the restrictions: of two broken at one place, that of the lesser row is told.
    fn row(self) -> usize
        ensures { result ≡ row_number self }
    {
        match self {
            Restriction::NoAbortStatements => 0,
            Restriction::NoRequeueStatements => 1,
            Restriction::NoSelectStatements => 2,
            Restriction::NoRelativeDelay => 3,
            Restriction::NoLocalProtectedObjects => 4,
            Restriction::NoTaskHierarchy => 5,
            Restriction::MaxProtectedEntries => 6,
            Restriction::MaxTaskEntries => 7,
            Restriction::SimpleBarriers => 8,
            Restriction::NoDynamicPriorities => 9,
            Restriction::NoDependence => 10,
        }
    }

    // Its identifier (D.7, 13.12.1).
    fn identifier(self) -> &'static str {
        match self {
            Restriction::NoAbortStatements => "No_Abort_Statements",
            Restriction::NoRequeueStatements => "No_Requeue_Statements",
            Restriction::NoSelectStatements => "No_Select_Statements",
            Restriction::NoRelativeDelay => "No_Relative_Delay",
            Restriction::NoLocalProtectedObjects => "No_Local_Protected_Objects",
            Restriction::NoTaskHierarchy => "No_Task_Hierarchy",
            Restriction::MaxProtectedEntries => "Max_Protected_Entries",
            Restriction::MaxTaskEntries => "Max_Task_Entries",
            Restriction::SimpleBarriers => "Simple_Barriers",
            Restriction::NoDynamicPriorities => "No_Dynamic_Priorities",
            Restriction::NoDependence => "No_Dependence",
        }
    }
}

impl fmt::Display for Restriction {
    fn fmt<W: fmt::Write>(&self, f: &mut fmt::Formatter<W>) -> fmt::Result {
        f.write_str(self.identifier())
    }
}

/// A restriction that is broken, and the place where it is: a byte of the text, from 0.
#[derive(Clone, Copy, PartialEq, Eq, Debug, Drop)]
pub struct Violation {
    pub restriction: Restriction,
    pub place: usize,
}

impl Violation {
    // Whether it stands before another, or at its place in an earlier row.
    pub(crate) fn precedes(self, other: Violation) -> bool
        ensures { result ≡ precedes self other }
    {
        if self.place == other.place {
            self.restriction.row() < other.restriction.row()
        } else {
            self.place < other.place
        }
    }
}

impl fmt::Display for Violation {
    fn fmt<W: fmt::Write>(&self, f: &mut fmt::Formatter<W>) -> fmt::Result {
        write!(f, "{} at {}", self.restriction, self.place)
    }
}
