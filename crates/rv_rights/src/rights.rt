//! Who may call what behind a journal, by an observer of its audit.

ghost use Rattle.std.specs.Prelude.{◌≡◌, IfOk, OnOk, List, Option, if◌then◌else◌, string_bytes};
ghost use Rattle.rv_access.specs.Words.{Words};
ghost use Rattle.rv_history.specs.History.{History, force};
ghost use Rattle.rv_history.specs.Legal.{empty};
ghost use Rattle.rv_history.specs.declared.limits.Limits.{Limits};
ghost use Rattle.rv_rights.specs.Following.{Follows};
ghost use Rattle.rv_rights.specs.Rights.{WishText, or_no_text, rights_text, tells_none};

use crate::listing::put_rights;
use crate::wish::Wish;
use rv_access::AccessList;
use rv_audit::observer::Observer;
use rv_event::entry::Answer;
use rv_host::host::Host;
use rv_reading::deed::Deed;
use rv_shape::catalogue::Catalogue;
use rv_shape::shape::UnitShape;
use std::alloc::{AllocError, Global};

/// Keeps the list in force while a journal is audited, and lists what it grants, or where it
/// and another list differ.
pub struct Rights<'f> {
    alloc: Global,
    wish: Wish<'f>,
    list: AccessList,
    other: Option<AccessList>,
}

impl<'f> Drop for Rights<'f> {
    // A function of its own: a derived one is written out wherever one is let go, and proved there.
    fn drop(self) {
        let Rights {
            alloc: _,
            wish: _,
            list: _,
            other: _,
        } = self;
    }
}

// The list in force. Err where memory was refused.
fn list_of(alloc: Global, host: &Host) -> Result<AccessList, AllocError>
    ensures { IfOk result (λ list. list ≡ force host.now) }
{
    match host.list() {
        Some(list) => list.copy(),
        None => Ok(AccessList::new(alloc)),
    }
}

// That there is no difference, where nothing is said.
fn or_no_difference(alloc: Global, tells_none: bool, text: String) -> Result<String, AllocError>
    ensures { IfOk result (λ said. string_bytes said ≡ (if tells_none then or_no_text (string_bytes text) else string_bytes text)) }
{
    if tells_none && text.as_str().is_empty() {
        return String::from_str(alloc, "no difference\n");
    }
    Ok(text)
}

impl<'f> Rights<'f> {
    /// Before the first line of a journal.
    pub fn new(alloc: Global, wish: Wish<'f>, other: Option<AccessList>) -> Rights<'f>
        ensures wish { result.wish ≡ wish.entry }
        ensures other { result.other ≡ other }
        ensures begins { (limits : Limits) → Follows result.wish result.other result (empty limits) }
    {
        Rights {
            alloc,
            wish,
            list: AccessList::new(alloc),
            other,
        }
    }

    /// The rows. Err where memory was refused.
    pub fn into_text(self, catalogue: &Catalogue) -> Result<String, AllocError>
        ensures { (wish : WishText) (other : Option (List Words)) (h : History) → catalogue.now ≡ h.shapes → Follows wish other self.entry h →
            IfOk result (λ text. string_bytes text ≡ rights_text wish other h) }
    {
        let mut text = String::new(self.alloc);
        put_rights(
            self.alloc,
            &mut text,
            &self.wish,
            &self.list,
            self.other.as_ref(),
            catalogue,
        )?;
        or_no_difference(self.alloc, self.tells_none(), text)
    }

    // Whether it tells that there is no difference.
    fn tells_none(&self) -> bool
        ensures { result ≡ tells_none self.now.wish self.now.other }
    {
        !self.wish.as_json && self.other.is_some()
    }
}

impl<'f> Observer for Rights<'f> {
    ghost follows = { λ begun it units h. Follows begun.wish begun.other it h };

    ghost awaits = { λ begun it units h told. Follows begun.wish begun.other it h };

    fn before(
        &mut self,
        _units: &[UnitShape],
        _host: &Host,
        _number: usize,
        _deed: &Deed<'_>,
    ) -> Result<(), AllocError> {
        Ok(())
    }

    fn after(
        &mut self,
        _units: &[UnitShape],
        host: &Host,
        deed: &Deed<'_>,
        _answer: &Answer,
    ) -> Result<(), AllocError> {
        match *deed {
            Deed::Asks(_, _, _) => Ok(()),
            Deed::Loads(_, _, _) => Ok(()),
            Deed::Lists(_, _, _) => {
                self.list = list_of(self.alloc, host)?;
                Ok(())
            }
        }
    }
}
