//! The tasks that belong to other processes, by the words of `run`.

ghost use Rattle.std.specs.Prelude.{◌≡◌, ◌++◌, ◌∷◌, [], List, Some, IfOk, OnOk, map, option_map};
ghost use Rattle.clap.specs.Matches.{found_of};
ghost use Rattle.clap.specs.Walk.{Row, Text, rows_of};
ghost use Rattle.clap.specs.Words.{subcommand_rows_of};
ghost use Rattle.rv_choice.specs.Actors.{AreActors, actor_of, actor_text, both, given_to, has_task, is_comma, is_equals, parts_at, said_by, words_in};

use crate::chosen::Unchosen;
use crate::command::command;
use crate::misuse::{Flag, Misuse};
use clap::ArgMatches;
use rv_text::{dotted_parts, is_same_name};
use std::alloc::Global;

/// A task that belongs to another process, by its words.
#[derive(Clone, Copy, Drop)]
pub struct ActorWords<'a> {
    /// The task, `Unit.Task`.
    pub task: &'a str,
    /// The name of the pipe whence its requests are read.
    pub requests: &'a str,
    /// The name of the pipe where it is written what they came to.
    pub replies: &'a str,
}

// Both parts of a word, where neither is empty.
fn both<'a>(front: &'a str, back: &'a str) -> Option<(&'a str, &'a str)>
    ensures { option_map (λ p. (p.0.now, p.1.now)) result ≡ both front.now back.now }
{
    if front.len() == 0 {
        return None;
    }
    if back.len() == 0 {
        return None;
    }
    Some((front, back))
}

// What stands before and behind the first equals sign, where neither is empty.
fn at_equals(word: &str) -> Option<(&str, &str)>
    ensures { option_map (λ p. (p.0.now, p.1.now)) result ≡ parts_at is_equals word.now }
{
    let Some((front, back)) = word.split_once('=') else {
        return None;
    };
    both(front, back)
}

// What stands before and behind the first comma, where neither is empty.
fn at_comma(word: &str) -> Option<(&str, &str)>
    ensures { option_map (λ p. (p.0.now, p.1.now)) result ≡ parts_at is_comma word.now }
{
    let Some((front, back)) = word.split_once(',') else {
        return None;
    };
    both(front, back)
}

// The task with its pipes that a word says; none of another word.
fn actor_of(word: &str) -> Option<ActorWords<'_>>
    ensures { option_map actor_text result ≡ actor_of word.now }
{
    let Some((task, pipes)) = at_equals(word) else {
        return None;
    };
    if dotted_parts(task).is_none() {
        return None;
    }
    let Some((requests, replies)) = at_comma(pipes) else {
        return None;
    };
    Some(ActorWords {
        task,
        requests,
        replies,
    })
}

// Whether a task is among these.
fn has_task(actors: &[ActorWords<'_>], task: &str) -> bool
    ensures { result ≡ has_task task.now actors.now }
{
    for actor in actors {
        if is_same_name(actor.task, task) {
            return true;
        }
    }
    false
}

// Adds the task that a word says, if it says one that isn't there.
fn add<'a>(actors: &mut Vec<ActorWords<'a>>, word: &'a str) -> Result<(), Unchosen<'a>>
    ensures { OnOk result (said_by actors.new.items ≡ said_by actors.old.items ++ actor_of word.now ∷ []) }
{
    let Some(actor) = actor_of(word) else {
        return Err(Unchosen::Misused(Misuse::Word(Flag::Actor, word)));
    };
    if has_task(actors.as_slice(), actor.task) {
        return Err(Unchosen::Misused(Misuse::Twice(Flag::Actor, word)));
    }
    match actors.push(actor) {
        Ok(()) => Ok(()),
        Err(_) => Err(Unchosen::NoMemory),
    }
}

// The tasks that words say, in order.
fn actors_in<'a>(alloc: Global, words: &[&'a str]) -> Result<Vec<ActorWords<'a>>, Unchosen<'a>>
    ensures { IfOk result (λ actors. said_by actors.items ≡ map (λ w. actor_of w.now) words.now) }
{
    let mut actors = Vec::new(alloc);
    for word in words {
        match add(&mut actors, *word) {
            Ok(()) => {}
            Err(e) => return Err(e),
        }
    }
    Ok(actors)
}

// The tasks that `run` was given.
fn given_actors<'a>(
    alloc: Global,
    words: &ArgMatches<'a>,
) -> Result<Vec<ActorWords<'a>>, Unchosen<'a>>
    ensures { IfOk result (λ actors. said_by actors.items ≡ map actor_of (words_in (rows_of (found_of words.now)))) }
{
    match words.get_strs("actor") {
        Some(given) => actors_in(alloc, given),
        None => Ok(Vec::new(alloc)),
    }
}

// The tasks that a command line says that was read.
fn actors_by<'a>(
    alloc: Global,
    matches: &ArgMatches<'a>,
) -> Result<Vec<ActorWords<'a>>, Unchosen<'a>>
    ensures { IfOk result (λ actors. (found : Text × List Row) → subcommand_rows_of matches.now ≡ Some found → said_by actors.items ≡ map actor_of (given_to found)) }
{
    let Some((name, words)) = matches.subcommand() else {
        return Ok(Vec::new(alloc));
    };
    if name == "run" {
        return given_actors(alloc, words);
    }
    Ok(Vec::new(alloc))
}

/// The tasks that belong to other processes, by words that `chosen` took; none where they choose no `run`.
///
/// # Errors
/// `Misused` at the first word that names no task with two pipes, or a task that a word before it names. `NoMemory` where memory
/// was refused.
pub fn actors_of<'a>(
    alloc: Global,
    words: &'a [&'a str],
) -> Result<Vec<ActorWords<'a>>, Unchosen<'a>>
    ensures { IfOk result (λ actors. AreActors (map (λ w. w.now) words.now) actors.items) }
{
    let Ok(command) = command(alloc) else {
        return Err(Unchosen::NoMemory);
    };
    let Ok(matches) = command.try_get_matches_from(words) else {
        return Err(Unchosen::NoMemory);
    };
    actors_by(alloc, &matches)
}
