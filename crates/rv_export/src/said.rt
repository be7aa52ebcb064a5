//! What many lines say alike, found once for the list in force and the units that are loaded. An Err means that memory was refused.

ghost use Rattle.std.specs.Prelude.{◌≡◌, ◌++◌, List, [], IfOk, IfSome, OnOk, map, string_bytes};
ghost use Rattle.rv_access.specs.Lines.{line_at};
ghost use Rattle.rv_access.specs.Text.{line_text};
ghost use Rattle.rv_access.specs.Words.{Words};
ghost use Rattle.rv_shape.specs.Catalogue.{target, who};
ghost use Rattle.rv_shape.specs.Printed.{actor_text};
ghost use Rattle.rv_shape.specs.Shape.{Shape};
ghost use Rattle.rv_history.specs.History.{History, force};
ghost use Rattle.rv_refused.specs.Refusals.{line_words};
ghost use Rattle.rv_asked.specs.Asked.{decided_by};
ghost use Rattle.rv_asked.specs.Holding.{Keeps};
ghost use Rattle.rv_export.specs.Exports.{target_fields};
ghost use Rattle.rv_export.specs.Said.{AreActors, AreCalls, AreCallsOn, IsSaid};

use crate::fields::{put_target, put_text, put_who};
use rv_access::Line;
use rv_asked::holding::Holding;
use rv_asked::tabled::Tabled;
use rv_event::entry::Body;
use rv_host::host::Host;
use rv_shape::actor::FIRST_TASK;
use rv_shape::catalogue::Catalogue;
use std::alloc::{AllocError, Global};

// The operations of an object of which it is found; what is said of others is found each time.
const OPERATIONS: usize = 17;

/// The lines of the list in force, the names of actors, and what calls are calls of, as lines of JSON have them.
pub struct Said {
    alloc: Global,
    tabled: Tabled,
    lines: Vec<String>,
    actors: Vec<String>,
    calls: Vec<Vec<String>>,
}

impl Drop for Said {
    // A function of its own: a derived one is written out wherever one is let go, and proved there.
    fn drop(self) {
        let Said {
            alloc: _,
            tabled: _,
            lines: _,
            actors: _,
            calls: _,
        } = self;
    }
}

// The words of lines.
fn words_of(alloc: Global, lines: &[Line]) -> Result<Vec<String>, AllocError>
    ensures { IfOk result (λ words. map string_bytes words.items ≡ map line_text lines.now) }
{
    let mut words = Vec::new(alloc);
    for line in lines {
        words.push(line.text(alloc)?)?;
    }
    Ok(words)
}

// The words of the lines of the list in force.
fn lines_of(alloc: Global, host: &Host) -> Result<Vec<String>, AllocError>
    ensures { IfOk result (λ words. map string_bytes words.items ≡ map line_text (force host.now)) }
{
    match host.list() {
        Some(list) => words_of(alloc, list.lines()),
        None => words_of(alloc, &[]),
    }
}

// The name of an actor.
fn name_of(alloc: Global, catalogue: &Catalogue, actor: usize) -> Result<String, AllocError>
    ensures { IfOk result (λ name. string_bytes name ≡ actor_text (who catalogue.now actor)) }
{
    let mut name = String::new(alloc);
    put_who(&mut name, "", &catalogue.who(actor))?;
    Ok(name)
}

// The names of all actors.
fn actors_of(alloc: Global, catalogue: &Catalogue) -> Result<Vec<String>, AllocError>
    ensures { IfOk result (λ names. AreActors names.items catalogue.now) }
{
    let mut names = Vec::new(alloc);
    let count = FIRST_TASK + catalogue.tasks();
    for actor in 0..count {
        names.push(name_of(alloc, catalogue, actor)?)?;
    }
    Ok(names)
}

// What a call of an operation of an object is a call of.
fn call_of(
    alloc: Global,
    catalogue: &Catalogue,
    object: usize,
    operation: usize,
) -> Result<String, AllocError>
    ensures { IfOk result (λ fields. string_bytes fields ≡ target_fields (target catalogue.now object operation)) }
{
    let mut fields = String::new(alloc);
    put_target(&mut fields, &catalogue.callee(object, operation))?;
    Ok(fields)
}

// The same of the operations of an object.
fn calls_on(alloc: Global, catalogue: &Catalogue, object: usize) -> Result<Vec<String>, AllocError>
    ensures { IfOk result (λ calls. AreCallsOn calls.items catalogue.now object) }
{
    let mut calls = Vec::new(alloc);
    for operation in 0..OPERATIONS {
        calls.push(call_of(alloc, catalogue, object, operation)?)?;
    }
    Ok(calls)
}

// The same of all objects.
fn calls_of(alloc: Global, catalogue: &Catalogue) -> Result<Vec<Vec<String>>, AllocError>
    ensures { IfOk result (λ calls. AreCalls calls.items catalogue.now) }
{
    let mut calls = Vec::new(alloc);
    let count = catalogue.objects() + 1;
    for object in 0..count {
        calls.push(calls_on(alloc, catalogue, object)?)?;
    }
    Ok(calls)
}

// The words of the line of a number, of which these are all.
fn line_of(lines: &[String], number: usize) -> &str
    ensures { (list : List Words) → map string_bytes lines.now ≡ map line_text list → result.now ≡ line_words (line_at list number) }
{
    if number == 0 {
        return "no line";
    }
    match lines.get(number - 1) {
        Some(words) => words.as_str(),
        None => "no line",
    }
}

// What is said of a call, if it is among these.
fn call_in(calls: &[Vec<String>], object: usize, operation: usize) -> Option<&str>
    ensures { (shapes : List Shape) → AreCalls calls.now shapes →
        IfSome result (λ fields. fields.now ≡ target_fields (target shapes object operation)) }
{
    let Some(row) = calls.get(object) else {
        return None;
    };
    match row.as_slice().get(operation) {
        Some(fields) => Some(fields.as_str()),
        None => None,
    }
}

// Puts what was found.
fn put_found(text: &mut String, found: &str) -> Result<(), AllocError>
    ensures { OnOk result (string_bytes text.new ≡ string_bytes text.old ++ found.now) }
{
    text.push_str(found)
}

impl Said {
    /// Before the first entry.
    pub fn new(alloc: Global) -> Said
        ensures { (h : History) → force h ≡ [] → IsSaid result h }
    {
        Said {
            alloc,
            tabled: Tabled::new(alloc),
            lines: Vec::new(alloc),
            actors: Vec::new(alloc),
            calls: Vec::new(alloc),
        }
    }

    /// Another list is in force, or more is loaded.
    pub fn renew(&mut self, host: &Host) -> Result<(), AllocError>
        ensures { OnOk result (IsSaid self.new host.now) }
    {
        let catalogue = host.catalogue();
        self.tabled.renew(host)?;
        self.lines = lines_of(self.alloc, host)?;
        self.actors = actors_of(self.alloc, catalogue)?;
        self.calls = calls_of(self.alloc, catalogue)?;
        Ok(())
    }

    /// The number of the line of the list in force that decides a call now; 0 where none does.
    pub fn decided(&self, host: &Host, holding: &Holding, call: &Body) -> usize
        ensures { IsSaid self.now host.now → Keeps holding.now host.now.shapes host.now.past
            → result ≡ decided_by (force host.now) host.now call.now }
    {
        self.tabled.decided(host, holding, call)
    }

    /// The words of the line of a number of the list in force, or that there is none.
    pub fn line(&self, number: usize) -> &str
        ensures { (h : History) → IsSaid self.now h → result.now ≡ line_words (line_at (force h) number) }
    {
        line_of(self.lines.as_slice(), number)
    }

    /// Puts a word and an actor behind it.
    pub fn put_actor(
        &self,
        text: &mut String,
        word: &str,
        catalogue: &Catalogue,
        actor: usize,
    ) -> Result<(), AllocError>
        ensures { OnOk result ((h : History) → catalogue.now ≡ h.shapes → IsSaid self.now h →
            string_bytes text.new ≡ string_bytes text.old ++ (word.now ++ actor_text (who h.shapes actor))) }
    {
        match self.actors.as_slice().get(actor) {
            Some(name) => put_text(text, word, name.as_str()),
            None => put_who(text, word, &catalogue.who(actor)),
        }
    }

    /// Puts what a call is a call of, if it is one of something.
    pub fn put_call(
        &self,
        text: &mut String,
        catalogue: &Catalogue,
        object: usize,
        operation: usize,
    ) -> Result<(), AllocError>
        ensures { OnOk result ((h : History) → catalogue.now ≡ h.shapes → IsSaid self.now h →
            string_bytes text.new ≡ string_bytes text.old ++ target_fields (target h.shapes object operation)) }
    {
        match call_in(self.calls.as_slice(), object, operation) {
            Some(fields) => put_found(text, fields),
            None => put_target(text, &catalogue.callee(object, operation)),
        }
    }
}
