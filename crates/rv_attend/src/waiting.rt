//! Waiting for a command.

ghost use Rattle.std.specs.Prelude.{◌≡◌, ◌⊎◌, IfOk, IfSome};
ghost use Rattle.rv_attend.specs.Attending.{Grows};
ghost use Rattle.rv_attend.specs.Going.{CommandComes, UnlessStopped};
ghost use Rattle.rv_attend.specs.Lasting.{GoesFor, Halts, Tends, standing};
ghost use Rattle.rv_attend.specs.declared.waiting.Heard.TheVariants.{Command};
ghost use Rattle.rv_feed.specs.Hearing.{HearsOn, IsStopped, heard, told};
ghost use Rattle.rv_feed.specs.declared.feed.Came.TheVariants.{Over};
ghost use Rattle.rv_input.specs.Whole.{HasCommand};
ghost use Rattle.rv_run.specs.declared.command.Goes.TheVariants.{Out};

use crate::attention::{Attention, Typing};
use crate::due::{do_chores, do_round};
use crate::follower::Follower;
use crate::ticking::until_tick;
use rv_fault::Failure;
use rv_feed::{Came, Listening};
use rv_follow::Found;
use rv_input::{Input, has_command, has_command_now};
use rv_pace::Pace;
use rv_run::command::{Goes, of_input};
use rv_run::outputs::KeptFailure;
use rv_shell::{Order, order_of};
use rv_staff::{Session, say};
use std::alloc::Global;
use std::io::Write;
use std::sync::Wait;
use std::time::{Clock, Duration};

// The shortest and the longest wait between two looks, in milliseconds.
const SHORTEST: u64 = 1;

const LONGEST: u64 = 16;

// What is told of a `load` that is typed.
const HINT: &str = "note: a unit text follows, and behind it a line @end\n";

// What was found of the input.
#[derive(Clone, Copy, Drop)]
enum Heard {
    // No whole command yet, and nothing more in time.
    Nothing,
    // More of it.
    More,
    // A command, or the end of the input.
    Command,
}

// How long is waited for the input: until the next tick at most, and for longer each time that nothing came.
fn next_wait<T: Clock>(rt: &T, pace: &Option<Pace>, millis: u64) -> Duration {
    let wait = Duration::from_millis(millis);
    match until_tick(rt, pace) {
        Some(until) => wait.min(until),
        None => wait,
    }
}

// What was found of the input, where this came behind so many bytes.
fn found_by(came: Came, input: &Input, before: usize) -> Heard
    ensures { result ≡ Command → (came ≡ Over) ⊎ HasCommand input.now }
{
    match came {
        Came::Bytes => {
            if has_command_now(input, before) {
                Heard::Command
            } else {
                Heard::More
            }
        }
        Came::Nothing => Heard::Nothing,
        Came::Over => Heard::Command,
    }
}

// Waits for more of the input.
fn hear<T: Wait + Clock>(
    source: &mut Listening<'_, T>,
    input: &mut Input,
    most: Duration,
) -> Result<Heard, Failure>
    ensures grows { Grows input.old input.new }
    ensures hears { IfOk result (λ _. HearsOn (heard source.old.feed) (heard source.new.feed) input.old input.new) }
    ensures comes { IfOk result (λ found. found ≡ Command → CommandComes (heard source.new.feed) input.new) }
    ensures stop { source.new.stop ≡ source.old.stop }
{
    let before = input.ahead().len();
    match source.hear(input, most) {
        Ok(came) => Ok(found_by(came, input, before)),
        Err(fault) => Err(of_input(fault)),
    }
}

// How long the next wait is, in milliseconds, behind one of this length: none where more entries came than were written.
fn wait_behind(found: Found, heard: Heard, millis: u64) -> u64 {
    match (found, heard) {
        (Found::More, _) => 0,
        (Found::Nothing, Heard::Nothing) => { millis.saturating_mul(2).max(SHORTEST).min(LONGEST) }
        _ => SHORTEST,
    }
}

// Whether the run goes on: it was not ended from outside.
fn unless_stopped<T: Wait + Clock>(source: &mut Listening<'_, T>, goes: Goes) -> Goes
    ensures goes { UnlessStopped (told source.old.stop) (told source.new.stop) goes result }
    ensures feed { source.new.feed ≡ source.old.feed }
{
    match goes {
        Goes::On => {
            if source.is_stopped() {
                Goes::Out
            } else {
                Goes::On
            }
        }
        Goes::Out => Goes::Out,
    }
}

// Does what is due once, behind what was found of the input. Gives the end of the run, where it ends.
fn do_once<T: Wait + Clock, E: Write, F: Write>(
    rt: &T,
    session: &mut Session,
    follower: &mut Follower<'_, T, F>,
    found: Heard,
    errors: &mut E,
    millis: &mut u64,
) -> Result<Option<Goes>, KeptFailure>
    ensures tends { Tends (standing F.contents session.old.staff follower.old)
        (standing F.contents session.new.staff follower.new) result }
    ensures feed { follower.new.source.feed ≡ follower.old.source.feed }
    ensures ends { IfOk result (λ goes. IfSome goes (λ ends. (ends ≡ Out) × (Halts (standing F.contents session.old.staff follower.old)
        (standing F.contents session.new.staff follower.new) ⊎ IsStopped (told follower.new.source.stop)))) }
{
    match do_round(rt, session, follower, errors) {
        Ok(round) => {
            *millis = wait_behind(round.found, found, *millis);
            Ok(unless_on(unless_stopped(&mut follower.source, round.goes)))
        }
        Err(failure) => Err(failure),
    }
}

// Whether bytes begin with a command `load`, behind which a unit text comes.
fn begins_with_load(alloc: Global, bytes: &[u8]) -> bool {
    let Some(end) = bytes.iter().position(|byte| *byte == b'\n') else {
        return false;
    };
    match str::from_utf8(&bytes[..end]) {
        Ok(line) => match order_of(alloc, line) {
            Ok(Order::Load) => true,
            _ => false,
        },
        Err(_) => false,
    }
}

// Whether somebody types at a terminal who waits for notes, and wasn't told yet what is waited for.
fn is_unhinted<T, F>(follower: &Follower<'_, T, F>) -> bool {
    follower.asked.tells && !follower.is_hinted && follower.asked.console == Some(Typing::Shown)
}

// Tells somebody who types a `load` that a unit text is waited for, once.
fn hint<T, E: Write, F>(follower: &mut Follower<'_, T, F>, input: &Input, errors: &mut E)
    ensures keeper { follower.new.keeper ≡ follower.old.keeper }
    ensures asked { follower.new.asked ≡ follower.old.asked }
    ensures room { follower.new.room ≡ follower.old.room }
    ensures feed { follower.new.source.feed ≡ follower.old.source.feed }
{
    if is_unhinted(follower) && begins_with_load(follower.alloc, input.ahead()) {
        follower.is_hinted = true;
        let _ = say(errors, HINT);
    }
}

// Waits once, and then does what is due, also where more entries came than are written at once: so a command is soon heard.
// Gives whether the run goes on, once that is known.
fn wait_once<T: Wait + Clock, E: Write, F: Write>(
    rt: &T,
    session: &mut Session,
    follower: &mut Follower<'_, T, F>,
    input: &mut Input,
    errors: &mut E,
    millis: &mut u64,
) -> Result<Option<Goes>, KeptFailure>
    ensures tends { Tends (standing F.contents session.old.staff follower.old)
        (standing F.contents session.new.staff follower.new) result }
    ensures grows { Grows input.old input.new }
    ensures hears { IfOk result (λ _. HearsOn (heard follower.old.source.feed) (heard follower.new.source.feed) input.old input.new) }
    ensures goes { IfOk result (λ goes. IfSome goes (GoesFor (standing F.contents session.old.staff follower.old)
        (standing F.contents session.new.staff follower.new) input.new (heard follower.new.source.feed) (told follower.new.source.stop))) }
{
    let most = next_wait(rt, &follower.pace, *millis);
    match hear(&mut follower.source, input, most) {
        Ok(Heard::Command) => Ok(Some(Goes::On)),
        Ok(found) => {
            hint(follower, input, errors);
            do_once(rt, session, follower, found, errors, millis)
        }
        Err(failure) => Err(KeptFailure::Run(failure)),
    }
}

// The end of a run, or nothing yet.
fn unless_on(goes: Goes) -> Option<Goes>
    ensures { IfSome result (λ ends. (ends ≡ Out) × (goes ≡ Out)) }
{
    match goes {
        Goes::On => None,
        Goes::Out => Some(Goes::Out),
    }
}

/// Waits until the next command has come, or none comes any more, and meanwhile does what is due. Gives whether the run goes on:
/// no command is served where it was ended from outside.
pub(crate) fn wait_command<T: Wait + Clock, E: Write, F: Write>(
    rt: &T,
    session: &mut Session,
    follower: &mut Follower<'_, T, F>,
    input: &mut Input,
    errors: &mut E,
) -> Result<Goes, KeptFailure>
    ensures tends { Tends (standing F.contents session.old.staff follower.old)
        (standing F.contents session.new.staff follower.new) result }
    ensures grows { Grows input.old input.new }
    ensures hears { IfOk result (λ _. HearsOn (heard follower.old.source.feed) (heard follower.new.source.feed) input.old input.new) }
    ensures goes { IfOk result (GoesFor (standing F.contents session.old.staff follower.old)
        (standing F.contents session.new.staff follower.new) input.new (heard follower.new.source.feed) (told follower.new.source.stop)) }
{
    if has_command(input) {
        return Ok(unless_stopped(&mut follower.source, Goes::On));
    }
    let mut millis = SHORTEST;
    for _ in rt.forever() {
        match wait_once(rt, session, follower, input, errors, &mut millis) {
            Ok(None) => {}
            Ok(Some(goes)) => return Ok(unless_stopped(&mut follower.source, goes)),
            Err(failure) => return Err(failure),
        }
    }
    unreachable!()
}

// Whether what is due is done once a command has come, too.
fn is_caught_up(asked: &Attention) -> bool {
    asked.console.is_some() || asked.lasting
}

/// Waits until the next command has come, or none comes any more. At a console what is due is done behind that too: so it tells of
/// entries that came while nobody typed. So it is where the run lasts: so there is room for the command.
pub(crate) fn wait_caught_up<T: Wait + Clock, E: Write, F: Write>(
    rt: &T,
    session: &mut Session,
    follower: &mut Follower<'_, T, F>,
    input: &mut Input,
    errors: &mut E,
) -> Result<Goes, KeptFailure>
    ensures tends { Tends (standing F.contents session.old.staff follower.old)
        (standing F.contents session.new.staff follower.new) result }
    ensures grows { Grows input.old input.new }
    ensures hears { IfOk result (λ _. HearsOn (heard follower.old.source.feed) (heard follower.new.source.feed) input.old input.new) }
    ensures goes { IfOk result (GoesFor (standing F.contents session.old.staff follower.old)
        (standing F.contents session.new.staff follower.new) input.new (heard follower.new.source.feed) (told follower.new.source.stop)) }
{
    match wait_command(rt, session, follower, input, errors) {
        Ok(Goes::On) if is_caught_up(&follower.asked) => {
            match do_chores(rt, session, follower, errors) {
                Ok(round) => Ok(round.goes),
                Err(failure) => Err(failure),
            }
        }
        waited => waited,
    }
}
