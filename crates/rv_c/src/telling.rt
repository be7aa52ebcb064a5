//! Telling a caller.

ghost use Rattle.rv_c.specs.Calls.{Gets};
ghost use Rattle.rv_c.specs.Said.{said_of};

use crate::told::Told;
use rv_c_text::Text;

/// Tells a caller all of this. Gives its status.
pub fn tell(text: &mut Text<'_>, told: &Told) -> i32
    ensures { Gets (said_of told.now) text.old text.new result }
{
    rv_c_text::tell(text, told.text.as_slice(), told.fault);
    told.status
}
