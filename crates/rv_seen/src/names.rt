//! How far a name is seen from a point of a text, and which names are (4.1.3, 8.3).

ghost use Rattle.std.specs.Prelude.{◌≡◌, false, Some, map, IfOk, IfSome, IfNone};
ghost use Rattle.std.specs.List.{All, filter};
ghost use Rattle.rv_tree.specs.NameView.{name_view};
ghost use Rattle.rv_near.specs.Near.{is_near, IsNearest};
ghost use Rattle.rv_scope.specs.declared.declared.Declared.{Declared as Declaration};
ghost use Rattle.rv_scope.specs.Visible.{visible};
ghost use Rattle.rv_seen.specs.Names.{stop_of as stop_of_name, is_seen as is_name_seen, place_of as place_of_declaration};

use rv_near::nearest;
use rv_scope::Declared;
use rv_scope::scope::Scope;
use rv_tree::name::Name;
use std::alloc::{AllocError, Global};

/// Where a name stops.
#[derive(Clone, Copy, PartialEq, Eq, Debug, Drop)]
pub enum Stop {
    /// At its first part: nothing of that name is seen there.
    Unseen,
    /// At the part of this number, from 1 behind the first point: what stands before it denotes this, which shows nothing of that name.
    Part(usize, Declared),
    /// Nowhere: it denotes this.
    Denotes(Declared),
}

// Where a name stops at a point of a text.
fn stop_at(scope: &Scope, name: &Name) -> Stop
    ensures { result ≡ stop_of_name scope.now (name_view name.now) }
{
    let Some(mut found) = scope.direct(name.first.text.as_str()) else {
        return Stop::Unseen;
    };
    for (index, part) in name.more.iter().enumerate() {
        match scope.selected(found, part.text.as_str()) {
            Some(next) => found = next,
            None => return Stop::Part(index + 1, found),
        }
    }
    Stop::Denotes(found)
}

/// Where a name stops at a point of a text. What it denotes is what is visible.
pub fn stop_of(scope: &Scope, name: &Name) -> Stop
    ensures stop { result ≡ stop_of_name scope.now (name_view name.now) }
    ensures visible { (found : Declaration) → result ≡ Stop.Denotes found → visible scope.now (name_view name.now) ≡ Some found }
{
    stop_at(scope, name)
}

// Whether a name is seen by itself, or behind what denotes this and a point.
fn is_seen(scope: &Scope, prefix: Option<Declared>, name: &str) -> bool
    ensures { result ≡ is_name_seen scope.now prefix name.now }
{
    match prefix {
        Some(prefix) => scope.selected(prefix, name).is_some(),
        None => scope.direct(name).is_some(),
    }
}

/// Those of some names that are seen, by themselves or behind what denotes this and a point. Err where memory was refused.
pub fn names_seen<'a>(
    alloc: Global,
    scope: &Scope,
    prefix: Option<Declared>,
    names: &[&'a str],
) -> Result<Vec<&'a str>, AllocError>
    ensures { IfOk result (λ seen. map (λ n. n.now) seen.items ≡ filter (is_name_seen scope.now prefix) (map (λ n. n.now) names.now)) }
{
    let mut seen = Vec::new(alloc);
    for name in names {
        if is_seen(scope, prefix, name) {
            seen.push(*name)?;
        }
    }
    Ok(seen)
}

/// The one of some names that is nearest to a word and seen, by itself or behind what denotes this and a point; `None` where none that is seen
/// is near. Err where memory was refused.
pub fn nearest_seen<'a>(
    alloc: Global,
    scope: &Scope,
    prefix: Option<Declared>,
    word: &str,
    names: &[&'a str],
) -> Result<Option<&'a str>, AllocError>
    ensures some { IfOk result (λ found. IfSome found
        (λ name. IsNearest word.now (filter (is_name_seen scope.now prefix) (map (λ n. n.now) names.now)) name.now)) }
    ensures none { IfOk result (λ found. IfNone found
        (All (λ name. is_near word.now name ≡ false) (filter (is_name_seen scope.now prefix) (map (λ n. n.now) names.now)))) }
{
    let seen = names_seen(alloc, scope, prefix, names)?;
    nearest(alloc, word, seen.as_slice())
}

/// The place in the text of the identifier that declares this; `None` where the text doesn't declare it.
pub fn place_of(found: Declared) -> Option<usize>
    ensures { result ≡ place_of_declaration found }
{
    match found {
        Declared::Subtype(at)
        | Declared::Constant(at)
        | Declared::Variable(at)
        | Declared::Parameter(at)
        | Declared::LoopParameter(at)
        | Declared::Component(at)
        | Declared::Operation(at, _)
        | Declared::ProtectedType(at, _)
        | Declared::SingleProtected(at, _)
        | Declared::ProtectedObject(at, _)
        | Declared::ObjectOperation(_, at, _)
        | Declared::Suspension(at)
        | Declared::Task(at) => Some(at),
        Declared::OwnUnit
        | Declared::Unit(_)
        | Declared::UnitObject(_, _)
        | Declared::UnitSuspension(_, _)
        | Declared::UnitOperation(_, _, _, _)
        | Declared::LibraryPackage(_)
        | Declared::Predefined(_) => None,
    }
}
