//! How long things lasted, by actor and object.

ghost use Rattle.std.specs.Prelude.{◌≡◌, ◌∷◌, ◌++◌, ◌+◌, [], IfOk, OnOk, codes, length, string_bytes, suc};
ghost use Rattle.rv_shape.specs.Catalogue.{all_objects, place};
ghost use Rattle.rv_shape.specs.Printed.{actor_text};
ghost use Rattle.rv_shape.specs.Readers.{who_of};
ghost use Rattle.rv_lasting.specs.Rows.{object_text, of_actor, row, rows, rows_of, rows_on, ticks_on};

use crate::track::Span;
use rv_shape::actor::{Actor, FIRST_TASK};
use rv_shape::catalogue::Catalogue;
use rv_spans::ranks_text;
use std::alloc::{AllocError, Global};

// Those of an actor. Err where memory was refused.
fn of_actor(alloc: Global, actor: usize, spans: &[Span]) -> Result<Vec<Span>, AllocError>
    ensures { IfOk result (λ mine. mine.items ≡ of_actor actor spans.now) }
{
    let mut mine = Vec::new(alloc);
    for span in spans {
        if span.actor == actor {
            mine.push(*span)?;
        }
    }
    Ok(mine)
}

// The ticks of those on an object. Err where memory was refused.
fn ticks_on(alloc: Global, object: usize, spans: &[Span]) -> Result<Vec<u64>, AllocError>
    ensures { IfOk result (λ ticks. ticks.items ≡ ticks_on object spans.now) }
{
    let mut ticks = Vec::new(alloc);
    for span in spans {
        if span.object == object {
            ticks.push(span.ticks)?;
        }
    }
    Ok(ticks)
}

// The name of an object, `-` where there is none. Err where memory was refused.
fn object_text(alloc: Global, catalogue: &Catalogue, object: usize) -> Result<String, AllocError>
    ensures { IfOk result (λ text. string_bytes text ≡ object_text (place catalogue.now object)) }
{
    let Some((shape, object)) = catalogue.object(object) else {
        return String::from_str(alloc, "-");
    };
    let unit = shape.name();
    let name = object.name();
    format!(in alloc; "{unit}.{name}")
}

// Puts a row.
fn put_words(
    text: &mut String,
    word: &str,
    who: &Actor<'_>,
    object: &str,
    ranks: &str,
) -> Result<(), AllocError>
    ensures { OnOk result (string_bytes text.new ≡ string_bytes text.old ++ (word.now ++ 32 ∷ (actor_text (who_of who.now)
        ++ 32 ∷ (object.now ++ 32 ∷ (ranks.now ++ 10 ∷ []))))) }
{
    write!(text, "{word} {who} {object} {ranks}\n")
}

// Puts the row of what lasted so long, of an actor on an object, if anything did.
fn put_row(
    alloc: Global,
    text: &mut String,
    word: &str,
    catalogue: &Catalogue,
    actor: usize,
    object: usize,
    ticks: Vec<u64>,
) -> Result<(), AllocError>
    ensures { OnOk result (string_bytes text.new ≡ string_bytes text.old ++ row word.now catalogue.now actor object ticks.items) }
{
    if ticks.as_slice().is_empty() {
        return Ok(());
    }
    let name = object_text(alloc, catalogue, object)?;
    let ranks = ranks_text(alloc, ticks)?;
    put_words(
        text,
        word,
        &catalogue.who(actor),
        name.as_str(),
        ranks.as_str(),
    )
}

// Puts the rows of an actor, of its spans on all objects.
fn put_rows_on(
    alloc: Global,
    text: &mut String,
    word: &str,
    catalogue: &Catalogue,
    actor: usize,
    spans: &[Span],
) -> Result<(), AllocError>
    ensures { OnOk result (string_bytes text.new ≡ string_bytes text.old
        ++ rows_on word.now catalogue.now actor spans.now (suc (length (all_objects catalogue.now)))) }
{
    let count = catalogue.objects() + 1;
    for object in 0..count {
        let ticks = ticks_on(alloc, object, spans)?;
        put_row(alloc, text, word, catalogue, actor, object, ticks)?;
    }
    Ok(())
}

/// Puts the rows of all actors: a word, whose and of which object, and how long. Err where memory was refused.
pub fn put_rows(
    alloc: Global,
    text: &mut String,
    word: &str,
    catalogue: &Catalogue,
    spans: &[Span],
) -> Result<(), AllocError>
    ensures { OnOk result (string_bytes text.new ≡ string_bytes text.old ++ rows word.now catalogue.now spans.now) }
{
    let count = FIRST_TASK + catalogue.tasks();
    for actor in 0..count {
        let mine = of_actor(alloc, actor, spans)?;
        put_rows_on(alloc, text, word, catalogue, actor, mine.as_slice())?;
    }
    Ok(())
}
