//! The files that a run writes beside its journal, and those of a journal that `audit` judges, by the words of the command line.

ghost use Rattle.std.specs.Prelude.{◌≡◌, ◌++◌, ◌∷◌, [], IfOk, List, OnOk, Some, map, true};
ghost use Rattle.clap.specs.Matches.{found_of};
ghost use Rattle.clap.specs.Walk.{Row, Text, rows_of};
ghost use Rattle.clap.specs.Words.{subcommand_rows_of};
ghost use Rattle.rv_choice.specs.Files.{AreBeside, AreFiles, AreGiven, AreJournals, has_any, journals_in, judged_of, texts_of};

use crate::chosen::Unchosen;
use crate::command::command;
use crate::misuse::{Flag, Misuse};
use crate::run_words::given_number;
use clap::ArgMatches;
use std::alloc::Global;

// The most that a file of a journal may be told to have, in MiB.
const MOST_MEBIBYTES: u32 = 1_048_576;

/// The files that a run writes beside its journal.
#[derive(Clone, Copy, Drop)]
pub struct FileWords<'a> {
    /// How many MiB a file of the journal has at most, where it has several.
    pub rotate: Option<u32>,
    /// The name of the file that the sections of units are written into.
    pub units: Option<&'a str>,
    /// The name of the file that says when entries were written.
    pub times: Option<&'a str>,
}

// None of that.
const NO_FILES: FileWords<'static> = FileWords {
    rotate: None,
    units: None,
    times: None,
};

impl FileWords<'_> {
    /// Whether there are some.
    pub fn has_any(&self) -> bool
        ensures { result ≡ has_any (texts_of self.now) }
    {
        self.rotate.is_some() || self.units.is_some() || self.times.is_some()
    }

    // The first flag that was given, of those that there are.
    fn first(&self) -> Flag {
        if self.rotate.is_some() {
            return Flag::Rotate;
        }
        if self.units.is_some() {
            return Flag::KeepUnits;
        }
        Flag::Times
    }
}

// The files, where there is one for the journal.
fn with_journal<'a>(has_journal: bool, files: FileWords<'a>) -> Result<FileWords<'a>, Misuse<'a>>
    ensures { IfOk result (λ f. (texts_of f ≡ texts_of files.entry) × (has_any (texts_of f) ≡ true → has_journal ≡ true)) }
{
    if files.has_any() && !has_journal {
        return Err(Misuse::Alone(files.first()));
    }
    Ok(files)
}

// The files beside the journal that `run` was given.
fn given_files<'a>(words: &ArgMatches<'a>) -> Result<FileWords<'a>, Misuse<'a>>
    ensures { IfOk result (λ files. AreBeside (rows_of (found_of words.now)) (texts_of files)) }
{
    let rotate = match given_number(words, Flag::Rotate, "rotate", MOST_MEBIBYTES) {
        Ok(rotate) => rotate,
        Err(misuse) => return Err(misuse),
    };
    let units = words.get_str("keep-units");
    let times = words.get_str("times");
    let files = FileWords {
        rotate,
        units,
        times,
    };
    with_journal(words.get_str("journal").is_some(), files)
}

// The files that a command line says that was read.
fn files_by<'a>(matches: &ArgMatches<'a>) -> Result<FileWords<'a>, Misuse<'a>>
    ensures { IfOk result (λ files. (found : Text × List Row) → subcommand_rows_of matches.now ≡ Some found → AreGiven found (texts_of files)) }
{
    let Some((name, words)) = matches.subcommand() else {
        return Ok(NO_FILES);
    };
    if name == "run" {
        return given_files(words);
    }
    Ok(NO_FILES)
}

/// The files that a run writes beside its journal, by words that `chosen` took; none where they choose no `run`.
///
/// # Errors
/// `Misused` where `--rotate` has a word that is no number of MiB, or one of these stands without `--journal`. `NoMemory` where memory was
/// refused.
pub fn files_of<'a>(alloc: Global, words: &'a [&'a str]) -> Result<FileWords<'a>, Unchosen<'a>>
    ensures { IfOk result (λ files. AreFiles (map (λ w. w.now) words.now) (texts_of files)) }
{
    let Ok(command) = command(alloc) else {
        return Err(Unchosen::NoMemory);
    };
    let Ok(matches) = command.try_get_matches_from(words) else {
        return Err(Unchosen::NoMemory);
    };
    match files_by(&matches) {
        Ok(files) => Ok(files),
        Err(misuse) => Err(Unchosen::Misused(misuse)),
    }
}

// The same names, in a vector of their own.
fn names_in<'a>(alloc: Global, words: &[&'a str]) -> Result<Vec<&'a str>, Unchosen<'a>>
    ensures { IfOk result (λ names. map (λ n. n.now) names.items ≡ map (λ w. w.now) words.now) }
{
    let mut names = Vec::new(alloc);
    for word in words {
        if names.push(*word).is_err() {
            return Err(Unchosen::NoMemory);
        }
    }
    Ok(names)
}

// The files that `audit` was given.
fn given_journals<'a>(alloc: Global, words: &ArgMatches<'a>) -> Result<Vec<&'a str>, Unchosen<'a>>
    ensures { IfOk result (λ names. map (λ n. n.now) names.items ≡ journals_in (rows_of (found_of words.now))) }
{
    match words.get_strs("journal") {
        Some(given) => names_in(alloc, given),
        None => Ok(Vec::new(alloc)),
    }
}

// The files of a journal that a command line says that was read.
fn journals_by<'a>(alloc: Global, matches: &ArgMatches<'a>) -> Result<Vec<&'a str>, Unchosen<'a>>
    ensures { IfOk result (λ names. (found : Text × List Row) → subcommand_rows_of matches.now ≡ Some found → map (λ n. n.now) names.items ≡ judged_of found) }
{
    let Some((name, words)) = matches.subcommand() else {
        return Ok(Vec::new(alloc));
    };
    if name == "audit" {
        return given_journals(alloc, words);
    }
    Ok(Vec::new(alloc))
}

/// The files of the journal that is judged, in order, by words that `chosen` took; none where they choose no `audit`.
///
/// # Errors
/// `NoMemory` where memory was refused.
pub fn journals_of<'a>(alloc: Global, words: &'a [&'a str]) -> Result<Vec<&'a str>, Unchosen<'a>>
    ensures { IfOk result (λ names. AreJournals (map (λ w. w.now) words.now) (map (λ n. n.now) names.items)) }
{
    let Ok(command) = command(alloc) else {
        return Err(Unchosen::NoMemory);
    };
    let Ok(matches) = command.try_get_matches_from(words) else {
        return Err(Unchosen::NoMemory);
    };
    journals_by(alloc, &matches)
}
