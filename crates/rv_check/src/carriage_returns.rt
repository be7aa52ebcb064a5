//! Carriage returns within the lines of a list's section, which hide what stands behind them.

use rv_text::next_line;
use std::alloc::{AllocError, Global};

// Whether a carriage return stands within a line.
fn has_return(line: &str) -> bool {
    for byte in line.as_bytes() {
        if *byte == b'\r' {
            return true;
        }
    }
    false
}

/// What is told of the lines of a list's section within which a carriage return stands: it ends no line, so that what stands
/// behind it belongs to the comment before it. Err where memory was refused.
pub(crate) fn return_lines(alloc: Global, text: &str) -> Result<String, AllocError> {
    let mut told = String::new(alloc);
    let mut rest = text;
    let mut number: usize = 0;
    while let Some((line, after)) = next_line(rest) {
        number = number.saturating_add(1);
        if has_return(line) {
            let words = format!(in alloc;
                "warning: line {number} of the section has a carriage return within, which ends no line\n"
            )?;
            told.push_str(words.as_str())?;
        }
        rest = after;
    }
    Ok(told)
}
