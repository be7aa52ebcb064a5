//! One part of a script: a section, and what its line opens.

ghost use Rattle.std.specs.Prelude.{◌≡◌, ◌≤◌, ◌+◌, ◌^◌, length};
ghost use Rattle.rv_script.specs.Openings.{opening_of};

use crate::failure::{Failure, refused};
use crate::fault::What;
use rv_script::Opening;

/// A section of a script, and what its line opens.
#[derive(Clone, Copy)]
pub struct Part<'a> {
    /// The number of the script's line that opens it, from 1.
    pub line: usize,
    /// What that line opens; none where that isn't known.
    pub opening: Option<Opening>,
    /// That line as it stands, from its `@` on, without its line feed and a carriage return before that.
    pub heading: &'a str,
    /// What stands behind that line, up to the next part or the script's end.
    pub text: &'a str,
    ghost opens: { opening ≡ opening_of heading.now },
    ghost numbered: { line + length text.now ≤ 2 ^ 63 },
}

impl<'a> Part<'a> {
    /// Why a script is refused where this part isn't one that is taken: `BadSection`, at its line.
    pub fn not_taken(&self) -> Failure
        ensures { result ≡ Failure.Refused (record { line = self.now.line; what = What.BadSection }) }
    {
        refused(self.line, What::BadSection)
    }
}
