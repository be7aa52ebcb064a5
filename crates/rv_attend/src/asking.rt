//! Where a run lasts, a command for which there is no room is asked again behind an archive.

ghost use Rattle.std.specs.Prelude.{◌≡◌, ◌⊎◌, [], List, ℕ, Ok, Some, IfNone, IfOk, IfSome, true};
ghost use Rattle.rv_attend.specs.Again.{AskedAgain, Asks, InVain, IsRequest, TakesRoom, full_line};
ghost use Rattle.rv_attend.specs.Chores.{ChoresIn};
ghost use Rattle.rv_follow.specs.Following.{Later};
ghost use Rattle.rv_input.specs.Coming.{Reading};
ghost use Rattle.rv_port.specs.Traces.{Passing};
ghost use Rattle.rv_run.specs.Staging.{stage};
ghost use Rattle.rv_shell.specs.Serving.{Prints, Serves};
ghost use Rattle.rv_shell.specs.declared.shell.Next.TheVariants.{Go};
ghost use Rattle.rv_staff.specs.Saying.{Known};
ghost use Rattle.rv_text.specs.Words.{words};

use crate::follower::Follower;
use rv_fault::Failure;
use rv_run::command::{Goes, after};
use rv_script::write_whole;
use rv_shell::{LineFault, Next, Order, Shell, order_of};
use rv_staff::{Session, Staff};
use rv_step::reading::StepError;
use std::alloc::Global;
use std::io::Write;
use std::sync::Wait;

// What is said where there is no room.
const FULL: &[u8] = b"full\n";

// What a command came to, and what is to be said of it.
#[derive(Drop)]
struct Asked {
    next: Result<Next, LineFault>,
    text: Vec<u8>,
}

impl Asked {
    // Whether there was no room for it.
    fn is_full(&self) -> bool
        ensures { result ≡ true → (self.now.next ≡ Ok Go) × (self.now.text.items ≡ full_line) }
    {
        match &self.next {
            Ok(Next::Go) => self.text.as_slice() == FULL,
            _ => false,
        }
    }
}

// Whether a command takes room that may come again: a change of the list, or ticks.
fn is_request(order: &Order) -> bool
    ensures { result ≡ true → IsRequest order.now }
{
    match order {
        Order::Change(_) => true,
        Order::Tick(_) => true,
        _ => false,
    }
}

// Whether a command line asks one of these.
fn takes_room(alloc: Global, line: &str) -> bool
    ensures { result ≡ true → TakesRoom line.now }
{
    match order_of(alloc, line) {
        Ok(order) => is_request(&order),
        Err(_) => false,
    }
}

// Carries a command line out. What is to be said of it is kept.
#[tactic(auto, using(rv_shell::proofs::Serving::read_serves))]
fn ask<T: Wait>(rt: &T, alloc: Global, staff: &mut Staff, line: &str) -> Asked
    ensures serves { Serves (Some []) (Some result.text.items) staff.old.control staff.new.control (words line.now) result.next }
    ensures crew { staff.new.crew ≡ staff.old.crew }
{
    let mut text = Vec::new(alloc);
    let shell = Shell::new(alloc);
    let next = staff.carry_out(rt, &shell, order_of(alloc, line), &mut text);
    Asked { next, text }
}

// Gives up all entries whose lines stand in the file, if there are two at least.
fn make_room<T: Wait, F>(rt: &T, staff: &mut Staff, follower: &mut Follower<'_, T, F>)
    ensures chores { ChoresIn true staff.old.control staff.new.control }
    ensures crew { staff.new.crew ≡ staff.old.crew }
    ensures keeper { follower.new.keeper ≡ follower.old.keeper }
    ensures asked { follower.new.asked ≡ follower.old.asked }
    ensures room { follower.new.room ≡ follower.old.room }
    ensures source { follower.new.source ≡ follower.old.source }
{
    let mut least = follower.archive.with_share(0);
    staff.archive(rt, &follower.keeper, &mut least);
    follower.archive.given_up = least.given_up;
}

// Carries a command line out, and once more behind an archive where there was no room.
fn ask_again<T: Wait, F>(
    rt: &T,
    session: &mut Session,
    follower: &mut Follower<'_, T, F>,
    line: &str,
) -> Asked
    ensures asks { (again : Passing) × ((again ≡ session.old.staff.control) ⊎ InVain session.old.staff.control again line.now)
        × Asks again session.new.staff.control line.now result.text.items result.next }
    ensures crew { session.new.staff.crew ≡ session.old.staff.crew }
    ensures keeper { follower.new.keeper ≡ follower.old.keeper }
    ensures asked { follower.new.asked ≡ follower.old.asked }
    ensures room { follower.new.room ≡ follower.old.room }
    ensures source { follower.new.source ≡ follower.old.source }
{
    let alloc = session.alloc;
    let first = ask(rt, alloc, &mut session.staff, line);
    if !first.is_full() {
        return first;
    }
    make_room(rt, &mut session.staff, follower);
    ask(rt, alloc, &mut session.staff, line)
}

// Writes what is to be said of a command.
fn put<W: Write>(writer: &mut W, text: &[u8]) -> Result<Next, LineFault>
    ensures { Prints (W.contents writer.old) (W.contents writer.new) text.now result }
{
    match write_whole(writer, text) {
        Ok(()) => Ok(Next::Go),
        Err(e) => Err(LineFault::Write(e)),
    }
}

// What a command came to, once it is said. What there was no memory to keep is as an answer that there is none for.
fn told<W: Write>(asked: Asked, writer: &mut W) -> Result<Next, LineFault>
    ensures serves { (v w : Passing) → (line : List ℕ) → TakesRoom line → Asks v w line asked.text.items asked.next
        → Serves (W.contents writer.old) (W.contents writer.new) v w (words line) result }
    ensures go { IfOk result (λ next. next ≡ Go) }
{
    let Asked { next, text } = asked;
    match next {
        Ok(_) => put(writer, text.as_slice()),
        Err(LineFault::Worn) => Err(LineFault::Worn),
        Err(LineFault::NoMemory) => Err(LineFault::NoMemory),
        Err(LineFault::Write(_)) => Err(LineFault::NoMemory),
    }
}

/// Carries out a command that takes room, where the run lasts: where there is none, entries are given up that the file has, and it is asked
/// again. None of another command, which is carried out as in any run.
pub(crate) fn answer_request<T: Wait, W: Write, F>(
    rt: &T,
    session: &mut Session,
    follower: &mut Follower<'_, T, F>,
    line: &str,
    writer: &mut W,
) -> Option<Result<Goes, Failure>>
    ensures none { IfNone result ((session.new.staff ≡ session.old.staff) × (W.contents writer.new ≡ W.contents writer.old)) }
    ensures lasting { IfSome result (λ _. follower.old.asked.lasting ≡ true) }
    ensures again { IfSome result (λ outcome. (input : Reading) → (left : Known)
        → AskedAgain (stage session.old.staff (W.contents writer.old) input left) (stage session.new.staff (W.contents writer.new) input left) line.now outcome) }
    ensures later { Later session.old.staff.control session.new.staff.control }
    ensures keeper { follower.new.keeper ≡ follower.old.keeper }
    ensures asked { follower.new.asked ≡ follower.old.asked }
    ensures room { follower.new.room ≡ follower.old.room }
    ensures source { follower.new.source ≡ follower.old.source }
{
    if !follower.asked.lasting {
        return None;
    }
    if !takes_room(session.alloc, line) {
        return None;
    }
    let asked = ask_again(rt, session, follower, line);
    let next = told(asked, writer);
    Some(after(next, writer))
}
