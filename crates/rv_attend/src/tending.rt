//! What is done until the next command comes, and of a line that came.

ghost use Rattle.std.specs.Prelude.{◌≡◌, IfNone, IfOk, None};
ghost use Rattle.std.specs.Io.KnownBytes.{Keeps};
ghost use Rattle.rv_follow.specs.Following.{Later};
ghost use Rattle.rv_attend.specs.Again.{HeedsPlainly};
ghost use Rattle.rv_attend.specs.Attending.{Attends, Grows};
ghost use Rattle.rv_attend.specs.Chores.{Chores};
ghost use Rattle.rv_attend.specs.Lasting.{GoesFor, Tends, standing};
ghost use Rattle.rv_feed.specs.Hearing.{HearsOn, heard, told};
ghost use Rattle.rv_run.specs.Staging.{stage};
ghost use Rattle.rv_staff.specs.Saying.{Known};

use crate::asking::answer_request;
use crate::attention::Attention;
use crate::console::{answer_word, leave, prompt};
use crate::due::do_chores;
use crate::ending::look_at_line;
use crate::follower::Follower;
use crate::notes::{keep_word, tell_before};
use crate::waiting::wait_caught_up;
use rv_fault::Failure;
use rv_input::Input;
use rv_run::command::{Goes, of_io};
use rv_run::leaving::wrote;
use rv_run::outputs::{KeptFailure, Outputs};
use rv_run::serving::of_run;
use rv_shell::Order;
use rv_staff::Session;
use rv_step::reading::StepError;
use std::io::Write;
use std::sync::Wait;
use std::time::Clock;

// Hands on what was written, and behind it a prompt where there is a console and the run goes on.
fn hand_on<W: Write>(asked: &Attention, goes: Goes, writer: &mut W) -> Result<(), Failure>
    ensures { asked.now.console ≡ None → Keeps (W.contents writer.old) (W.contents writer.new) }
{
    let prompted = prompt(asked, goes, writer);
    match writer.flush() {
        Ok(()) => wrote(prompted),
        Err(e) => Err(of_io(e)),
    }
}

// Waits for a command; where none comes the run is left.
fn wait_prompted<T: Wait + Clock, W: Write, E: Write, F: Write>(
    rt: &T,
    session: &mut Session,
    follower: &mut Follower<'_, T, F>,
    input: &mut Input,
    outputs: &mut Outputs<W, E>,
) -> Result<Goes, KeptFailure>
    ensures tends { Tends (standing F.contents session.old.staff follower.old)
        (standing F.contents session.new.staff follower.new) result }
    ensures grows { Grows input.old input.new }
    ensures hears { IfOk result (λ _. HearsOn (heard follower.old.source.feed) (heard follower.new.source.feed) input.old input.new) }
    ensures goes { IfOk result (GoesFor (standing F.contents session.old.staff follower.old)
        (standing F.contents session.new.staff follower.new) input.new (heard follower.new.source.feed) (told follower.new.source.stop)) }
    ensures silent { follower.old.asked.console ≡ None → W.contents outputs.new.writer ≡ W.contents outputs.old.writer }
{
    match wait_caught_up(rt, session, follower, input, &mut outputs.errors) {
        Ok(Goes::Out) => of_run(leave(&follower.asked, &mut outputs.writer)),
        Ok(Goes::On) => {
            look_at_line(follower, &*input, &mut outputs.errors);
            Ok(Goes::On)
        }
        Err(failure) => Err(failure),
    }
}

/// Does what is due, hands on what was written behind it, and waits for the next command. Gives whether the run goes on.
pub(crate) fn attend<T: Wait + Clock, W: Write, E: Write, F: Write>(
    rt: &T,
    session: &mut Session,
    follower: &mut Follower<'_, T, F>,
    input: &mut Input,
    outputs: &mut Outputs<W, E>,
) -> Result<Goes, KeptFailure>
    ensures tends { Tends (standing F.contents session.old.staff follower.old)
        (standing F.contents session.new.staff follower.new) result }
    ensures attends { (left : Known) → follower.old.asked.console ≡ None
        → Attends follower.old.asked.lasting (stage session.old.staff (W.contents outputs.old.writer) input.old left) (stage session.new.staff (W.contents outputs.new.writer) input.new left) }
    ensures hears { IfOk result (λ _. HearsOn (heard follower.old.source.feed) (heard follower.new.source.feed) input.old input.new) }
    ensures goes { IfOk result (GoesFor (standing F.contents session.old.staff follower.old)
        (standing F.contents session.new.staff follower.new) input.new (heard follower.new.source.feed) (told follower.new.source.stop)) }
{
    match do_chores(rt, session, follower, &mut outputs.errors) {
        Ok(round) => match hand_on(&follower.asked, round.goes, &mut outputs.writer) {
            Ok(()) => match round.goes {
                Goes::On => wait_prompted(rt, session, follower, input, outputs),
                Goes::Out => Ok(Goes::Out),
            },
            Err(failure) => Err(KeptFailure::Run(failure)),
        },
        Err(failure) => Err(failure),
    }
}

// Counts a line that doesn't end the run; what is told while a command is waited for is told anew behind it.
fn note_line<T, F>(follower: &mut Follower<'_, T, F>, read: &Result<Order, StepError>)
    ensures keeper { follower.new.keeper ≡ follower.old.keeper }
    ensures asked { follower.new.asked ≡ follower.old.asked }
    ensures room { follower.new.room ≡ follower.old.room }
    ensures source { follower.new.source ≡ follower.old.source }
{
    follower.is_hinted = false;
    match read {
        Ok(Order::Quit) => {}
        _ => follower.served = follower.served.saturating_add(1),
    }
}

/// Looks at a line before it is carried out: a word of a console is answered, and of a command is told what there is to tell. Where the run
/// lasts, one that takes room is carried out, and asked again behind an archive if need be. None where it is to be carried out.
pub(crate) fn heed<T: Wait, W: Write, E: Write, F>(
    rt: &T,
    session: &mut Session,
    follower: &mut Follower<'_, T, F>,
    input: &Input,
    line: &str,
    read: &Result<Order, StepError>,
    outputs: &mut Outputs<W, E>,
) -> Option<Result<Goes, Failure>>
    ensures plain { (left : Known) → follower.old.asked.console ≡ None
        → HeedsPlainly follower.old.asked.lasting (stage session.old.staff (W.contents outputs.old.writer) input.now left)
        (stage session.new.staff (W.contents outputs.new.writer) input.now left) line.now result }
    ensures chores { IfNone result (Chores session.old.staff.control session.new.staff.control) }
    ensures crew { IfNone result (session.new.staff.crew ≡ session.old.staff.crew) }
    ensures later { Later session.old.staff.control session.new.staff.control }
    ensures keeper { follower.new.keeper ≡ follower.old.keeper }
    ensures asked { follower.new.asked ≡ follower.old.asked }
    ensures room { follower.new.room ≡ follower.old.room }
    ensures source { follower.new.source ≡ follower.old.source }
{
    note_line(follower, read);
    follower.filed.hear(follower.alloc, read, input.ahead());
    match answer_word(rt, session, follower, line, read, &mut outputs.writer) {
        Some(answered) => {
            keep_word(follower, line);
            Some(answered)
        }
        None => {
            tell_before(
                rt,
                session,
                follower,
                input,
                line,
                read,
                &mut outputs.errors,
            );
            answer_request(rt, session, follower, line, &mut outputs.writer)
        }
    }
}
