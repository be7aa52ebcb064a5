//! Telling a caller an answer.

ghost use Rattle.std.specs.Prelude.{◌≡◌};
ghost use Rattle.rv_c_host.specs.Numbers as numbers;

use crate::numbers::{actor_of, kind_of, line_of, rule_of, scalars_of, value_of, version_of};
use crate::told::Told;
use rv_c_text::lay_values;
use rv_event::entry::{Answer, Next};

// Tells an answer of this kind that has components alone, if it has any part. Gives its kind.
fn tell_bare(kind: i32, values: &[i64], told: &mut Told) -> i32
    ensures told { told.new ≡ numbers.bare kind values.now told.old }
    ensures kind { result ≡ kind }
{
    lay_values(values, &mut told.scalars);
    told.count = values.len();
    told.kind = kind;
    told.rule = 0;
    told.line = 0;
    told.version = 0;
    told.actor = 0;
    told.value = 0;
    kind
}

// Tells any answer, by all its parts. Gives its kind.
fn tell_any(answer: &Answer, told: &mut Told) -> i32
    ensures told { told.new ≡ numbers.told_of answer.now told.old }
    ensures kind { result ≡ numbers.kind_of answer.now }
{
    let values = scalars_of(answer);
    lay_values(values, &mut told.scalars);
    told.count = values.len();
    told.kind = kind_of(answer);
    told.rule = rule_of(answer);
    told.line = line_of(answer);
    told.version = version_of(answer);
    told.actor = actor_of(answer);
    told.value = value_of(answer);
    told.kind
}

/// Tells a caller an answer. Gives its kind. That a body starts, or ends with nobody in its queue, is told by the parts that there are.
pub fn tell(answer: &Answer, told: &mut Told) -> i32
    ensures told { told.new ≡ numbers.told_of answer.now told.old }
    ensures kind { result ≡ numbers.kind_of answer.now }
{
    match answer {
        Answer::Started(values) => tell_bare(1, values.as_slice(), told),
        Answer::Done(Next::Nothing) => tell_bare(4, &[], told),
        _ => tell_any(answer, told),
    }
}
