//! What a name is wanted for, and what may stand there.

ghost use Rattle.std.specs.Prelude.{◌≡◌};
ghost use Rattle.rv_scope.specs.Wanted.{sort, operation_sort as operation_sort_of, predefined_sort as predefined_sort_of, suits, is_value};

use crate::declared::{Declared, OperationKind};
use crate::predefined::Predefined;

/// What a name is wanted for.
#[derive(Clone, Copy, PartialEq, Eq, Debug, Drop)]
pub enum Wanted {
    /// A `with` (10.1.2).
    With,
    /// A `use` of packages (8.4).
    Use,
    /// A subtype of values (3.2.2).
    Subtype,
    /// The type of a package's object: a protected type, or that of suspension objects (3.3.1).
    ObjectType,
    /// A name in an expression (4.4).
    Value,
    /// A choice of a case statement: a value, or a subtype (5.4).
    Choice,
    /// What is called with arguments in an expression: a function, or a subtype (6.4, 4.6).
    Called,
    /// What is assigned (5.2).
    Target,
    /// What a statement calls: a procedure or an entry (6.4, 9.5.3).
    Procedure,
    /// An exception (11.3).
    Exception,
    /// The procedure that a pragma attaches to a line (C.3.1).
    Handler,
    /// The package of a body (7.2).
    PackageBody,
    /// The protected unit of a body (9.4).
    ProtectedBody,
    /// The task of a body (9.1).
    TaskBody,
    /// The function of a body (6.3).
    FunctionBody,
    /// The procedure of a body (6.3).
    ProcedureBody,
    /// The entry of a body (9.5.2).
    EntryBody,
    /// Nothing: what stands here is never bound, since the profile has no such part.
    Nothing,
}

/// What sort of thing a declaration declares.
#[derive(Clone, Copy, PartialEq, Eq, Debug, Drop)]
pub enum Sort {
    Subtype,
    SuspensionType,
    ProtectedType,
    SingleProtected,
    ProtectedObject,
    Suspension,
    Task,
    Constant,
    Literal,
    Variable,
    Function,
    Procedure,
    Entry,
    Exception,
    OwnUnit,
    Unit,
    Library,
}

// The sort of an operation.
fn operation_sort(kind: OperationKind) -> Sort
    ensures { result ≡ operation_sort_of kind }
{
    match kind {
        OperationKind::Function => Sort::Function,
        OperationKind::Procedure => Sort::Procedure,
        OperationKind::Entry => Sort::Entry,
    }
}

// The sort of what a library package declares.
fn predefined_sort(item: Predefined) -> Sort
    ensures { result ≡ predefined_sort_of item }
{
    match item {
        Predefined::Integer
        | Predefined::Natural
        | Predefined::Positive
        | Predefined::Boolean
        | Predefined::Priority
        | Predefined::InterruptPriority
        | Predefined::AnyPriority
        | Predefined::Time
        | Predefined::TimeSpan => Sort::Subtype,
        Predefined::True | Predefined::False => Sort::Literal,
        Predefined::ConstraintError | Predefined::ProgramError | Predefined::AccessDenied => {
            Sort::Exception
        }
        Predefined::DefaultPriority | Predefined::Line(_) => Sort::Constant,
        Predefined::Clock | Predefined::Milliseconds | Predefined::CurrentState => Sort::Function,
        Predefined::SuspensionObject => Sort::SuspensionType,
        Predefined::SetTrue | Predefined::SetFalse | Predefined::SuspendUntilTrue => {
            Sort::Procedure
        }
    }
}

impl Declared {
    /// What sort of thing it is.
    pub fn sort(self) -> Sort
        ensures { result ≡ sort self }
    {
        match self {
            Declared::Subtype(_) => Sort::Subtype,
            Declared::Constant(_) | Declared::LoopParameter(_) => Sort::Constant,
            Declared::Variable(_) | Declared::Parameter(_) | Declared::Component(_) => {
                Sort::Variable
            }
            Declared::Operation(_, kind) => operation_sort(kind),
            Declared::ProtectedType(_, _) => Sort::ProtectedType,
            Declared::SingleProtected(_, _) => Sort::SingleProtected,
            Declared::ProtectedObject(_, _) | Declared::UnitObject(_, _) => Sort::ProtectedObject,
            Declared::ObjectOperation(_, _, kind) => operation_sort(kind),
            Declared::Suspension(_) | Declared::UnitSuspension(_, _) => Sort::Suspension,
            Declared::Task(_) => Sort::Task,
            Declared::OwnUnit => Sort::OwnUnit,
            Declared::Unit(_) => Sort::Unit,
            Declared::UnitOperation(_, _, _, kind) => operation_sort(kind),
            Declared::LibraryPackage(_) => Sort::Library,
            Declared::Predefined(item) => predefined_sort(item),
        }
    }
}

impl Sort {
    // Whether a name of this sort may stand in an expression; which values fit is a question of types.
    fn is_value(self) -> bool
        ensures { result ≡ is_value self }
    {
        match self {
            Sort::Constant | Sort::Literal | Sort::Variable | Sort::Function | Sort::Suspension =>
                true,
            _ => false,
        }
    }
}

impl Wanted {
    /// Whether this sort of thing is wanted.
    pub fn suits(self, found: Sort) -> bool
        ensures { result ≡ suits self found }
    {
        match self {
            Wanted::With => matches!(found, Sort::Library | Sort::Unit),
            Wanted::Use => matches!(found, Sort::Library),
            Wanted::Subtype => matches!(found, Sort::Subtype),
            Wanted::ObjectType => matches!(found, Sort::ProtectedType | Sort::SuspensionType),
            Wanted::Value => found.is_value(),
            Wanted::Choice => found.is_value() || matches!(found, Sort::Subtype),
            Wanted::Called => matches!(found, Sort::Function | Sort::Subtype),
            Wanted::Target => matches!(found, Sort::Variable | Sort::Constant),
            Wanted::Procedure => matches!(found, Sort::Procedure | Sort::Entry),
            Wanted::Exception => matches!(found, Sort::Exception),
            Wanted::Handler | Wanted::ProcedureBody => matches!(found, Sort::Procedure),
            Wanted::PackageBody => matches!(found, Sort::OwnUnit),
            Wanted::ProtectedBody => matches!(found, Sort::ProtectedType | Sort::SingleProtected),
            Wanted::TaskBody => matches!(found, Sort::Task),
            Wanted::FunctionBody => matches!(found, Sort::Function),
            Wanted::EntryBody => matches!(found, Sort::Entry),
            Wanted::Nothing => false,
        }
    }
}
