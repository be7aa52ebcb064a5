//! What a caller in C calls.

ghost use Rattle.rv_c.specs.Calls.{Audits, Plays};

use crate::audit::audited;
use crate::play::played;
use crate::telling::tell;
use rv_c_text::Text;
use std::alloc::Global;

/// Judges the journal that a script brings, and tells the caller what `ravenhost audit` prints of it; or, behind nothing, the line of
/// the fault that the script is refused for. Gives the status that the program would end with.
pub fn audit_into(alloc: Global, script: &[u8], text: &mut Text<'_>) -> i32
    ensures { Audits script.now text.old text.new result }
{
    let told = audited(alloc, script);
    tell(text, &told)
}

/// Plays a script, and tells the caller what `ravenhost play` prints of it, as with `--all` where all is asked for; and behind that
/// the line of the fault where the script is refused. Gives the status that the program would end with.
pub fn play_into(alloc: Global, script: &[u8], all: bool, text: &mut Text<'_>) -> i32
    ensures { Plays all script.now text.old text.new result }
{
    let told = played(alloc, script, all);
    tell(text, &told)
}
