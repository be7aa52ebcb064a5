//! Typed expressions.

ghost use Rattle.std.specs.Prelude.{◌≡◌, IfOk, Some};
ghost use Rattle.rv_code.specs.Expressions.{no_expressions};
ghost use Rattle.rv_code.specs.ExpressionView.{expression_view as code_view};
ghost use Rattle.rv_types.specs.Typed.{of_type as code_of_type, value_of, static_code as code_of_number, static_typed, is_decided as decides_all, literal_in as literal_of, number_of as number_of_code};
ghost use Rattle.rv_types.specs.TypedView.{typed_view};

use crate::refused::{Refused, mismatch};
use rv_code::{Expression as Code, Link};
use rv_shape::kind::ValueType;
use rv_static::{Number, Static, same_type};
use rv_tree::LogicalOperator;

/// The type of an expression, and the code that gives its value.
#[derive(Drop)]
pub struct Typed {
    pub of: ValueType,
    pub code: Code,
}

/// The type of a sum, and its terms behind the first one.
#[derive(Drop)]
pub struct Sum {
    pub of: ValueType,
    pub links: Vec<Link>,
}

impl Typed {
    pub(crate) fn into_code(self) -> Code
        ensures { code_view result ≡ code_view self.code }
    {
        let Typed { of: _, code } = self;
        code
    }

    /// The code, where the value is of this type; else a mismatch at this place.
    #[tactic(auto, unfolding(crate::specs::Typed::of_type))]
    pub(crate) fn of_type(self, wanted: ValueType, at: usize) -> Result<Code, Refused>
        ensures { IfOk result (λ c. code_of_type wanted (typed_view self) ≡ Some (code_view c)) }
    {
        let Typed { of, code } = self;
        if same_type(of, wanted) {
            Ok(code)
        } else {
            Err(mismatch(at))
        }
    }
}

// A static value; one that is never evaluated may be any.
pub(crate) fn static_value_code(value: Static) -> Typed
    ensures { typed_view result ≡ value_of value.of (code_of_number value.number) }
{
    let number = match value.number {
        Number::Known(number) => number,
        Number::Skipped => 0,
    };
    Typed {
        of: value.of,
        code: Code::Value(number),
    }
}

/// The value of a static operand.
pub(crate) fn literal_in(code: &Code) -> Option<i64>
    ensures { result ≡ literal_of (code_view code.now) }
{
    match code {
        Code::Value(number) => Some(*number),
        _ => None,
    }
}

/// The number of an operand that is static and evaluated; of another it isn't asked.
pub(crate) fn number_of(code: &Code, is_evaluated: bool) -> Number
    ensures { result ≡ number_of_code is_evaluated (code_view code.now) }
{
    if !is_evaluated {
        return Number::Skipped;
    }
    match code {
        Code::Value(number) => Number::Known(*number),
        _ => Number::Skipped,
    }
}
