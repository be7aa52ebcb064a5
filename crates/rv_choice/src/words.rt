//! What the words of a subcommand say: notes, colours, explanations, the files of its script and of `audit`.

ghost use Rattle.std.specs.Prelude.{◌≡◌, IfOk, codes, option_map};
ghost use Rattle.clap.specs.Matches.{found_of};
ghost use Rattle.clap.specs.Walk.{first_of, rows_of};
ghost use Rattle.rv_choice.specs.Choices.{Explains, TellsNotes, audit_of, color_wrong, explained_when, named_file, notes_wrong, script_wrong, torn_wrong, when_of, when_wrong, wrong_in};

use crate::misuse::{Flag, Misuse, said_by};
use crate::selection::{Choice, When};
use clap::ArgMatches;

/// What `audit` with its file and its flag chooses; a flag without a file chooses nothing.
pub fn audit_of<'a>(has_journal: bool, takes_torn: bool) -> Result<Choice, Misuse<'a>>
    ensures ok { IfOk result (λ choice. audit_of has_journal takes_torn ≡ Some choice) }
    ensures wrong { wrong_in result ≡ torn_wrong has_journal takes_torn }
{
    if has_journal {
        return Ok(Choice::AuditFile(takes_torn));
    }
    if takes_torn {
        return Err(Misuse::Alone(Flag::Torn));
    }
    Ok(Choice::Audit)
}

// When something is told or shown, by the word that was given; none for another word.
fn when_of(word: Option<&str>) -> Option<When>
    ensures { result ≡ when_of (option_map (λ w. w.now) word.entry) }
{
    let Some(word) = word else {
        return Some(When::Auto);
    };
    if word == "auto" {
        return Some(When::Auto);
    }
    if word == "always" {
        return Some(When::Always);
    }
    if word == "never" {
        return Some(When::Never);
    }
    None
}

// The same, by the word that a flag of this name was given.
fn given_when<'a>(words: &ArgMatches<'a>, flag: Flag, name: &str) -> Result<When, Misuse<'a>>
    ensures ok { IfOk result (λ when. when_of (first_of name.now (rows_of (found_of words.now))) ≡ Some when) }
    ensures wrong { wrong_in result ≡ when_wrong flag name.now (rows_of (found_of words.now)) }
{
    let word = words.get_str(name);
    said_by(flag, word, when_of(word))
}

// When notes are told, by what a subcommand was given.
fn notes_of<'a>(words: &ArgMatches<'a>) -> Result<When, Misuse<'a>>
    ensures ok { IfOk result (λ notes. TellsNotes (rows_of (found_of words.now)) notes) }
    ensures wrong { wrong_in result ≡ notes_wrong (rows_of (found_of words.now)) }
{
    given_when(words, Flag::Notes, "notes")
}

// When standard error has colours, by what a subcommand was given.
fn color_of<'a>(words: &ArgMatches<'a>) -> Result<When, Misuse<'a>>
    ensures ok { IfOk result (λ color. when_of (first_of (codes "color") (rows_of (found_of words.now))) ≡ Some color) }
    ensures wrong { wrong_in result ≡ color_wrong (rows_of (found_of words.now)) }
{
    given_when(words, Flag::Color, "color")
}

/// When notes are told, and when standard error has colours, by what a subcommand was given.
pub fn shown_of<'a>(words: &ArgMatches<'a>) -> Result<(When, When), Misuse<'a>>
    ensures notes { IfOk result (λ shown. TellsNotes (rows_of (found_of words.now)) shown.0) }
    ensures color { IfOk result (λ shown. when_of (first_of (codes "color") (rows_of (found_of words.now))) ≡ Some shown.1) }
    ensures wrong { wrong_in result ≡ script_wrong (rows_of (found_of words.now)) }
{
    let notes = match notes_of(words) {
        Ok(notes) => notes,
        Err(misuse) => return Err(misuse),
    };
    match color_of(words) {
        Ok(color) => Ok((notes, color)),
        Err(misuse) => Err(misuse),
    }
}

// When faults are explained, by whether that is asked for, and whether nothing is.
fn explained_when(always: bool, never: bool) -> When
    ensures { result ≡ explained_when always never }
{
    if never {
        When::Never
    } else if always {
        When::Always
    } else {
        When::Auto
    }
}

/// When faults are explained, by what a subcommand over a script was given.
pub fn faults_of(words: &ArgMatches<'_>) -> When
    ensures { Explains (rows_of (found_of words.now)) result }
{
    explained_when(words.get_flag("explain"), words.get_flag("no-explain"))
}

// The file of this name; the name `-` is that of standard input.
fn named_file<'a>(name: Option<&'a str>) -> Option<&'a str>
    ensures { option_map (λ n. n.now) result ≡ named_file (option_map (λ n. n.now) name.entry) }
{
    let Some(name) = name else {
        return None;
    };
    if name == "-" { None } else { Some(name) }
}

/// The file that a subcommand's script is read from, where one is given.
pub fn script_of<'a>(words: &ArgMatches<'a>) -> Option<&'a str>
    ensures { option_map (λ n. n.now) result ≡ named_file (first_of (codes "file") (rows_of (found_of words.now))) }
{
    named_file(words.get_str("file"))
}

/// The subcommand that a manual is of, where one is given.
pub fn subject_of<'a>(words: &ArgMatches<'a>) -> Option<&'a str>
    ensures { option_map (λ n. n.now) result ≡ first_of (codes "command") (rows_of (found_of words.now)) }
{
    words.get_str("command")
}
