//! How much memory the run of any body of a unit takes: how high its stack grows, by the heights of the trees of the table.

ghost use Rattle.std.specs.Prelude.{◌≡◌, ◌≤◌, ◌<◌, ◌-◌, ◌+◌, ℕ, List, [], ◌∷◌, Some, IfOk, length, map, max, slice_index};
ghost use Rattle.rv_flat.specs.FlatUnits.{flat_view, object_in, task_in};
ghost use Rattle.rv_flat.specs.FlatView.{body_in};
ghost use Rattle.rv_flat.specs.Tables.{trees};
ghost use Rattle.rv_flat.specs.Trees.{Tree, IsBackward, tree_of};
ghost use Rattle.rv_machine.specs.Heights.{body_height, operations_height, objects_height, tasks_height, called_height, any_height};
ghost use Rattle.rv_machine.specs.Machines.{IsFor};
ghost use Rattle.rv_machine.specs.Needs.{height_of, shape_of, height_by, AreHeights, AreHeightsTo, IsNeed};

use crate::machine::Machine;
use crate::stack::Stack;
use rv_flat::body::FlatBody;
use rv_flat::code::{Code, Kind, Node};
use rv_flat::unit::{FlatObject, FlatUnit};
use std::alloc::{AllocError, Global};

/// How many levels are looked at one by one, of the 1122 at which a body may be called: 66 for each object that an actor may
/// hold, and for the task's own body (own).
const FIRST_LEVELS: usize = 16;

/// How many others there are.
const OTHER_LEVELS: usize = 1106;

/// What the height of a node's tree is made of.
#[derive(Clone, Copy)]
pub enum Shape {
    /// The first part, awaited, or the parts behind it.
    Parts,
    /// A loop, which waits for each of its parts.
    Loop,
    /// A call, behind its arguments.
    Call,
}

/// What any run of a unit's bodies takes: so many frames and activations at most.
#[derive(Clone, Copy)]
pub struct Need {
    pub frames: usize,
    pub activations: usize,
}

// The greater of two numbers.
fn higher(a: usize, b: usize) -> usize
    ensures { result ≡ max a b }
{
    if a < b { b } else { a }
}

// The number in 32 bits. Err where it has more: no memory holds so many frames.
fn small(number: usize) -> Result<u32, AllocError>
    ensures { IfOk result (λ small. small ≡ number) }
{
    if number > u32::MAX as usize {
        return Err(AllocError);
    }
    Ok(number as u32)
}

// What the height of a node's tree is made of.
fn shape_of(kind: Kind) -> Shape
    ensures { result ≡ shape_of kind }
{
    match kind {
        Kind::While | Kind::For(_, _, _) => Shape::Loop,
        Kind::Call(_) | Kind::CallStatement(_) => Shape::Call,
        _ => Shape::Parts,
    }
}

// The height of a node whose children are so high.
fn height_by(shape: Shape, one: u32, call: u32, a: u32, b: u32, c: u32) -> usize
    ensures { result ≡ height_by shape one call a b c }
{
    let one = one as usize;
    let behind = higher(b as usize, c as usize);
    match shape {
        Shape::Parts => higher(one + a as usize, behind),
        Shape::Loop => one + higher(a as usize, behind),
        Shape::Call => one + one + higher(a as usize, 1 + call as usize),
    }
}

// The height of a number's tree.
fn height_in(heights: &Vec<u32>, number: usize) -> u32
    ensures { result ≡ slice_index heights.now.items number }
{
    match heights.get(number) {
        Some(height) => *height,
        None => 0,
    }
}

// The height of a node whose children's numbers are among those of these heights.
fn height_of(heights: &Vec<u32>, node: Node, one: u32, call: u32) -> usize
    requires children { IsBackward (length heights.now.items - 1) node }
    requires some { 0 < length heights.now.items }
    ensures { (ts : List Tree) → AreHeightsTo (length heights.now.items) one call ts heights.now.items → height_of one call (Some (tree_of ts node)) ≤ result }
{
    let a = height_in(heights, node.first);
    let b = height_in(heights, node.second);
    let c = height_in(heights, node.third);
    height_by(shape_of(node.kind), one, call, a, b, c)
}

// The heights of a table's trees, by their numbers, where a call is so high. Err where memory was refused.
fn heights_of(alloc: Global, code: &Code, one: u32, call: u32) -> Result<Vec<u32>, AllocError>
    ensures { IfOk result (λ heights. AreHeights one call (trees code.now) heights.items) }
{
    let mut heights = Vec::new(alloc);
    heights.push(0)?;
    'numbers: loop {
        let Some(node) = code.node(heights.len()) else {
            return Ok(heights);
        };
        let height = small(height_of(&heights, node, one, call))?;
        heights.push(height)?;
    }
}

// The height of a body.
fn body_high(heights: &Vec<u32>, body: &FlatBody, one: u32) -> usize
    ensures { (ts : List Tree) (call : ℕ) → AreHeights one call ts heights.now.items → body_height one call (body_in ts body.now) ≤ result }
{
    let declarations = height_in(heights, body.declarations) as usize;
    let statements = height_in(heights, body.statements) as usize;
    let handlers = height_in(heights, body.handlers) as usize;
    let one = one as usize;
    one + one + higher(declarations, higher(statements, handlers))
}

// The height of the highest body of an object.
fn operations_high(heights: &Vec<u32>, operations: &Vec<FlatBody>, one: u32) -> usize
    ensures { (ts : List Tree) (call : ℕ) → AreHeights one call ts heights.now.items → operations_height one call (map (body_in ts) operations.now.items) ≤ result }
{
    let mut high = 0;
    for body in operations {
        high = higher(high, body_high(heights, body, one));
    }
    high
}

// The height of the highest body of all objects.
fn objects_high(heights: &Vec<u32>, objects: &Vec<FlatObject>, one: u32) -> usize
    ensures { (ts : List Tree) (call : ℕ) → AreHeights one call ts heights.now.items → objects_height one call (map (object_in ts) objects.now.items) ≤ result }
{
    let mut high = 0;
    for object in objects {
        high = higher(high, operations_high(heights, &object.operations, one));
    }
    high
}

// The height of a task's body, if it has one.
fn task_high(heights: &Vec<u32>, task: &Option<FlatBody>, one: u32) -> usize
    ensures { (ts : List Tree) (call : ℕ) → AreHeights one call ts heights.now.items → tasks_height one call (task_in ts task.now ∷ []) ≤ result }
{
    match task {
        Some(body) => body_high(heights, body, one),
        None => 0,
    }
}

// The height of the highest body of all tasks.
fn tasks_high(heights: &Vec<u32>, tasks: &Vec<Option<FlatBody>>, one: u32) -> usize
    ensures { (ts : List Tree) (call : ℕ) → AreHeights one call ts heights.now.items → tasks_height one call (map (task_in ts) tasks.now.items) ≤ result }
{
    let mut high = 0;
    for task in tasks {
        high = higher(high, task_high(heights, task, one));
    }
    high
}

// The height of a call, where those at the level below are so high. Err where memory was refused.
fn level_high(alloc: Global, unit: &FlatUnit, one: u32, call: u32) -> Result<u32, AllocError>
    ensures { IfOk result (λ high. objects_height one call (flat_view unit.now).objects ≤ high) }
{
    let heights = heights_of(alloc, &unit.code, one, call)?;
    small(objects_high(&heights, &unit.objects, one))
}

// The height of a call at the highest level: where a level makes it no higher, no other does, and each level behind the first
// makes it higher by as much as the one behind these at most. Err where memory was refused.
fn called_high(alloc: Global, unit: &FlatUnit, one: u32) -> Result<u32, AllocError>
    ensures { IfOk result (λ call. called_height one (flat_view unit.now) 1122 ≤ call) }
{
    let mut call: u32 = 0;
    for _ in 0..FIRST_LEVELS {
        let high = level_high(alloc, unit, one, call)?;
        if high <= call {
            return Ok(call);
        }
        call = high;
    }
    let high = level_high(alloc, unit, one, call)?;
    let each = high.saturating_sub(call);
    small(call as usize + OTHER_LEVELS * each as usize)
}

// The height of any run. Err where memory was refused.
fn any_high(alloc: Global, unit: &FlatUnit, one: u32) -> Result<u32, AllocError>
    ensures { IfOk result (λ high. any_height one (flat_view unit.now) ≤ high) }
{
    let call = called_high(alloc, unit, one)?;
    let heights = heights_of(alloc, &unit.code, one, call)?;
    let tasks = tasks_high(&heights, &unit.tasks, one);
    small(higher(tasks, one as usize + call as usize))
}

impl Need {
    /// What any run of a unit's bodies takes. Err where memory was refused, which working it out takes too.
    pub fn of(alloc: Global, unit: &FlatUnit) -> Result<Need, AllocError>
        ensures { IfOk result (λ need. IsNeed unit.now need) }
    {
        let frames = any_high(alloc, unit, 1)?;
        let activations = any_high(alloc, unit, 0)?;
        Ok(Need {
            frames: frames as usize + 4,
            activations: activations as usize + 1,
        })
    }
}

impl Machine {
    /// Takes all memory that a run of a unit's bodies needs: an empty stack. Err where memory was refused.
    pub fn reserve(alloc: Global, unit: &FlatUnit, need: Need) -> Result<Stack, AllocError>
        requires { IsNeed unit.now need }
        ensures { IfOk result (IsFor unit.now) }
    {
        let _ = unit;
        Stack::reserve(alloc, need.frames, need.activations)
    }
}
