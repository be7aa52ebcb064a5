//! What the statements of a body run in.

ghost use Rattle.std.specs.Prelude.{◌≡◌, ◌-◌};
ghost use Rattle.rv_exec.specs.Blocks.{operation_setting};
ghost use Rattle.rv_exec.specs.Tasks.{task_setting};

use rv_event::entry::Exception;

/// How many objects an actor may hold at once; the limit is our own.
pub const MOST_HELD: u32 = 16;

/// How many internal calls may nest in a body, and the body itself; the limit is our own.
pub const MOST_NESTED: u32 = 65;

/// What no statement changes.
#[derive(Clone, Copy)]
pub struct Setting {
    /// The object whose operation runs, 0 in a task's own body.
    pub object: usize,
    /// How many more objects the actor may hold.
    pub held: u32,
    /// How many more internal calls may nest.
    pub nested: u32,
    /// Whether it is a task's own body.
    pub is_task: bool,
    /// The exception that is handled, in a handler.
    pub handling: Option<Exception>,
}

// How many more objects an actor may hold.
fn room(held: usize) -> u32
    ensures { result ≡ 16 - held }
{
    let most = MOST_HELD as usize;
    if held < most { (most - held) as u32 } else { 0 }
}

/// What an operation's body runs in, whose actor holds so many objects, its own with them.
pub fn of_operation(held: usize, object: usize) -> Setting
    ensures { result ≡ operation_setting held object }
{
    Setting {
        object,
        held: room(held),
        nested: MOST_NESTED,
        is_task: false,
        handling: None,
    }
}

/// What a task's own body runs in.
pub fn of_task() -> Setting
    ensures { result ≡ task_setting }
{
    Setting {
        object: 0,
        held: MOST_HELD,
        nested: MOST_NESTED,
        is_task: true,
        handling: None,
    }
}
