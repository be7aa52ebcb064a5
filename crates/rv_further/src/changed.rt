//! A text with words in place of some of its parts, and where its bytes stand in the text itself.

use std::alloc::{AllocError, Global};

/// A part of a text, and what stands in its place.
#[derive(Clone, Copy)]
pub(crate) struct Change<'a> {
    /// Where the part begins.
    pub(crate) at: usize,
    /// Where it ends.
    pub(crate) end: usize,
    pub(crate) word: &'a str,
}

impl Change<'_> {
    /// Whether the part is there, and has nothing in common with another.
    pub(crate) fn is_apart(&self, other: &Change<'_>) -> bool {
        self.at <= self.end && (self.end <= other.at || other.end <= self.at)
    }
}

/// The text with these changes, which are in the order of their parts.
pub(crate) fn changed(
    alloc: Global,
    text: &str,
    changes: &[Change<'_>],
) -> Result<String, AllocError> {
    let mut whole = String::new(alloc);
    let mut from = 0usize;
    for change in changes {
        whole.push_str(text.get(from..change.at).unwrap_or(""))?;
        whole.push_str(change.word)?;
        from = change.end;
    }
    whole.push_str(text.get(from..).unwrap_or(""))?;
    Ok(whole)
}

/// Where a byte of the text with these changes stands in the text itself; none where it stands in what is in place of a part.
pub(crate) fn place_in_text(changes: &[Change<'_>], place: usize) -> Option<usize> {
    let mut at = place;
    for change in changes {
        if at < change.at {
            return Some(at);
        }
        let behind = change.at.saturating_add(change.word.len());
        if at < behind {
            return None;
        }
        at = at.saturating_sub(behind).saturating_add(change.end);
    }
    Some(at)
}

/// These changes and one more, in the order of their parts; none where the parts aren't apart.
pub(crate) fn with_change<'a>(
    alloc: Global,
    changes: &[Change<'a>],
    change: Change<'a>,
) -> Result<Option<Vec<Change<'a>>>, AllocError> {
    let mut all = Vec::new(alloc);
    let mut is_put = false;
    for other in changes {
        if !change.is_apart(other) {
            return Ok(None);
        }
        if !is_put && change.at < other.at {
            all.push(change)?;
            is_put = true;
        }
        all.push(*other)?;
    }
    if !is_put {
        all.push(change)?;
    }
    Ok(Some(all))
}
