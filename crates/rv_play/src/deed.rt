//! Deeds: what a script asks of the host.

ghost use Rattle.std.specs.Prelude.{◌≡◌, IfOk, string_bytes};
ghost use Rattle.rv_code.specs.BodyView.{unit_view};
ghost use Rattle.rv_play.specs.Stages.{deed_text};
ghost use Rattle.rv_play.specs.Deeds.{plain, load, set, ask, go, changes_line, change_words, words_of};

use rv_access::{AccessList, Change};
use rv_code::{Unit, UnitBodies};
use rv_event::entry::Request;
use rv_event::text::text_of_request;
use rv_go::hearing::no_bodies;
use rv_history::command::Command;
use rv_shape::catalogue::Catalogue;
use rv_step::lookup::OPERATOR;
use std::alloc::{AllocError, Global};

/// What is asked of the host: by which actor, and which command.
#[derive(Drop)]
pub struct Deed {
    /// The number of who asks.
    pub actor: usize,
    /// The command; none where the actor has nothing to ask, which is answered misuse.
    pub command: Option<Command>,
    /// The number of the line that a change of one names, as a step has it; else 0.
    pub number: i64,
    /// Whether it is a `go`, so that the actor's text goes on by the answer.
    pub goes: bool,
    /// The bodies of the unit that it loads; none where it loads none.
    pub bodies: UnitBodies,
}

// The words of a change, of the line of this number, where it names one.
fn change_words(alloc: Global, change: &Change, number: i64) -> Result<String, AllocError>
    ensures { IfOk result (λ words. string_bytes words ≡ change_words change.now number) }
{
    match change {
        Change::Whole(list) => {
            let text = list.text(alloc)?;
            let text = text.as_str();
            format!(in alloc; "list [{text}]")
        }
        Change::Append(line) => {
            let text = line.text(alloc)?;
            let text = text.as_str();
            format!(in alloc; "append {text}")
        }
        Change::Remove(_) => format!(in alloc; "remove {number}"),
        Change::Replace(_, line) => {
            let text = line.text(alloc)?;
            let text = text.as_str();
            format!(in alloc; "replace {number} {text}")
        }
    }
}

impl Deed {
    // A command that is no `go` and loads nothing, with the number of the line that it names.
    fn plain(alloc: Global, actor: usize, command: Command, number: i64) -> Deed
        ensures { deed_text result ≡ plain actor command number }
    {
        Deed {
            actor,
            command: Some(command),
            number,
            goes: false,
            bodies: no_bodies(alloc),
        }
    }

    /// A unit with its bodies, loaded by the operator.
    pub fn load(unit: Unit) -> Deed
        ensures { deed_text result ≡ load unit.shape (unit_view unit.bodies) }
    {
        let Unit { shape, bodies } = unit;
        Deed {
            actor: OPERATOR,
            command: Some(Command::Load(shape)),
            number: 0,
            goes: false,
            bodies,
        }
    }

    /// The list, set whole by the operator.
    pub fn set(alloc: Global, list: AccessList) -> Deed
        ensures { deed_text result ≡ set list }
    {
        Deed::plain(alloc, OPERATOR, Command::Change(Change::Whole(list)), 0)
    }

    /// A request.
    pub fn ask(alloc: Global, actor: usize, request: Request) -> Deed
        ensures { deed_text result ≡ ask actor request }
    {
        Deed::plain(alloc, actor, Command::Ask(actor, request), 0)
    }

    /// A request of an actor's text, or none where it has nothing to ask.
    pub fn go(alloc: Global, actor: usize, request: Option<Request>) -> Deed
        ensures { deed_text result ≡ go actor request }
    {
        let command = match request {
            Some(request) => Some(Command::Ask(actor, request)),
            None => None,
        };
        Deed {
            actor,
            command,
            number: 0,
            goes: true,
            bodies: no_bodies(alloc),
        }
    }

    /// A change of one line of the list, which a step names by this number.
    pub fn change(alloc: Global, actor: usize, change: Change, number: i64) -> Deed
        ensures { deed_text result ≡ changes_line actor change number }
    {
        Deed::plain(alloc, actor, Command::Change(change), number)
    }

    /// The words of the request, as an answer that isn't recorded is told.
    pub fn words(&self, alloc: Global, catalogue: &Catalogue) -> Result<String, AllocError>
        ensures { IfOk result (λ words. string_bytes words ≡ words_of catalogue.now (deed_text self.now)) }
    {
        match &self.command {
            Some(Command::Ask(_, request)) => text_of_request(alloc, catalogue, request),
            Some(Command::Load(shape)) => {
                let name = shape.name();
                format!(in alloc; "load {name}")
            }
            Some(Command::Change(change)) => change_words(alloc, change, self.number),
            None => String::from_str(alloc, "go"),
        }
    }
}
