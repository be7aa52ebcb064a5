//! The least capacity of a run that lasts: what its tasks and lines may be owed at once has to fit, so that every request that waits for
//! room comes to have it.

ghost use Rattle.std.specs.Prelude.{◌≡◌, ◌≤◌, ◌+◌, is_some, max, min};
ghost use Rattle.rv_attend.specs.Least.{count_below, depth_of, handled_lines, is_protected, least_capacity, most_owed, owed_of, protected};
ghost use Rattle.rv_shape.specs.Catalogue.{handler, place};

use rv_shape::catalogue::Catalogue;
use rv_shape::object::Object;

// How many lines there are.
pub(crate) const LINES: usize = 10;

// How many objects an actor holds at once at most.
pub(crate) const DEEPEST: usize = 16;

// Whether the object of this number, which counts from 1, is a protected one.
fn is_protected(catalogue: &Catalogue, number: usize) -> bool
    ensures { result ≡ is_protected (place catalogue.now number) }
{
    match catalogue.object(number) {
        Some((_, Object::Protected(_))) => true,
        _ => false,
    }
}

// How many of the first so many objects are protected ones.
fn count_protected(catalogue: &Catalogue, below: usize) -> usize
    ensures count { result ≡ count_below (λ n. is_protected (place catalogue.now (n + 1))) below }
    ensures few { result ≤ below }
{
    if below == 0 {
        return 0;
    }
    let others = count_protected(catalogue, below - 1);
    if is_protected(catalogue, below) {
        others + 1
    } else {
        others
    }
}

// How many of the first so many lines have a handler.
fn count_handled(catalogue: &Catalogue, below: usize) -> usize
    ensures count { result ≡ count_below (λ line. is_some (handler catalogue.now line)) below }
    ensures few { result ≤ below }
{
    if below == 0 {
        return 0;
    }
    let others = count_handled(catalogue, below - 1);
    if catalogue.handler(below - 1).is_some() {
        others + 1
    } else {
        others
    }
}

// How many protected objects there are.
pub(crate) fn protected(catalogue: &Catalogue) -> usize
    ensures { result ≡ protected catalogue.now }
{
    count_protected(catalogue, catalogue.objects())
}

// How deep bodies call at most.
fn depth_of(catalogue: &Catalogue) -> usize
    ensures depth { result ≡ depth_of catalogue.now }
    ensures few { result ≤ 16 }
{
    protected(catalogue).min(DEEPEST)
}

/// How many entries may be owed at once with so many tasks, bodies that call so deep, and so many lines with a handler.
#[tactic(auto, using(crate::proofs::Owing::fewer_tasks, crate::proofs::Owing::fewer_lines))]
pub(crate) fn owed_of(tasks: usize, depth: usize, lines: usize) -> usize
    requires tasks { tasks ≤ 128 }
    requires depth { depth ≤ 16 }
    requires lines { lines ≤ 10 }
    ensures owed { result ≡ owed_of tasks depth lines }
    ensures few { result ≤ 2337 }
{
    1 + tasks * (1 + depth.max(2)) + depth * lines
}

/// How many entries may be owed at once.
pub(crate) fn most_owed(catalogue: &Catalogue) -> usize
    ensures owed { result ≡ most_owed catalogue.now }
    ensures few { result ≤ 2337 }
{
    let depth = depth_of(catalogue);
    let lines = count_handled(catalogue, LINES);
    owed_of(catalogue.tasks(), depth, lines)
}

/// The least capacity of a run that lasts.
pub(crate) fn least_capacity(catalogue: &Catalogue) -> usize
    ensures { result ≡ least_capacity catalogue.now }
{
    most_owed(catalogue) + 2
}
