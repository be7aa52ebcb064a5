//! Procedures that can't be attached to a line (C.3.1).

use rv_cause::around::Around;
use rv_cause::cases::told;
use rv_cause::cause::Cause;
use rv_cause::words::Words;

const NO_LINE: &str = "an interrupt line has to stand here: Int_0 .. Int_9 (C.3.2)";

const WITHOUT_LINE: &str = "{0} takes a line: write {0} => Int_0 (C.3.1)";

const NO_PROCEDURE: &str =
    "this pragma attaches a procedure of {5} that has no parameters and no line yet (J.15.7)";

// Whether a word stands in a pragma Attach_Handler, behind its name.
fn is_in_pragma(words: &Words<'_, '_>) -> bool {
    for count in 2..16usize {
        if words.was(count, ";") {
            return false;
        }
        if words.was(count, "Attach_Handler") {
            return words.was(count.saturating_add(1), "pragma");
        }
    }
    false
}

/// Whether the procedure stands here that a pragma Attach_Handler is to attach.
pub(crate) fn is_attached(words: &Words<'_, '_>) -> bool {
    words.fit("pragma Attach_Handler ( ^_") || words.fit("pragma Attach_Handler ( _ => ^_")
}

/// Why what stands at a word attaches nothing to a line, where it stands in an aspect or a pragma Attach_Handler.
pub(crate) fn bad_attachment<'a>(words: &Words<'_, 'a>, around: &Around<'a>) -> Option<Cause<'a>> {
    if is_attached(words) {
        return Some(told(words, around, NO_PROCEDURE));
    }
    if around.is_in_head && words.fit("with|, ^Attach_Handler") {
        return Some(words.cause(0, WITHOUT_LINE));
    }
    let is_line = around.is_in_head && words.fit("Attach_Handler => ^_");
    if is_line || is_in_pragma(words) {
        return Some(words.cause(0, NO_LINE));
    }
    None
}
