//! Regions of declarations, and whether one declares a name twice.

ghost use Rattle.std.specs.Prelude.{◌≡◌, ◌++◌, ◌∷◌, ◌&&◌, [], OnOk, IfOk};
ghost use Rattle.std.specs.List.{list_all};
ghost use Rattle.std.specs.Option.{is_none};
ghost use Rattle.rv_tree.specs.NameView.{identifier_view, identifiers_view};
ghost use Rattle.rv_distinct.specs.Regions.{are_distinct};

use crate::noted::Noted;
use rv_text::is_same_name;
use rv_tree::name::Identifier;
use std::alloc::{AllocError, Global};
use std::marker::Model;

/// The identifiers that a region declares, in the order of the text.
pub(crate) struct Region<'a> {
    declared: Vec<&'a Identifier>,
}

impl Drop for Region<'_> {
    // A function of its own: a derived one is written out wherever a value is let go, and proved there.
    fn drop(self) {
        let Region { declared: _ } = self;
    }
}

impl<'a> Model for Region<'a> {
    ghost use Rattle.std.specs.Prelude.{List, map};
    ghost use Rattle.rv_tree.specs.Names.{Identifier as TreeIdentifier};
    ghost use Rattle.rv_tree.specs.NameView.{identifier_view};

    ghost Value = { List TreeIdentifier };

    ghost view = { λ r. map (λ i. identifier_view i.now) r.declared.items };
}

impl<'a> Region<'a> {
    /// Nothing is declared.
    pub(crate) fn new(alloc: Global) -> Region<'a>
        ensures { result ≡ [] }
    {
        Region {
            declared: Vec::new(alloc),
        }
    }

    /// Declares an identifier. Err where memory was refused.
    pub(crate) fn declare(&mut self, identifier: &'a Identifier) -> Result<(), AllocError>
        ensures { OnOk result (self.new ≡ self.old ++ identifier_view identifier.now ∷ []) }
    {
        self.declared.push(identifier)?;
        Ok(())
    }

    /// Declares several.
    pub(crate) fn declare_all(&mut self, identifiers: &'a [Identifier]) -> Result<(), AllocError>
        ensures { OnOk result (self.new ≡ self.old ++ identifiers_view identifiers.now) }
    {
        for identifier in identifiers {
            self.declare(identifier)?;
        }
        Ok(())
    }

    /// The place of the first identifier whose name an earlier one has. Err where memory was refused.
    fn again(&self, alloc: Global) -> Result<Option<usize>, AllocError>
        ensures { IfOk result (λ at. is_none at ≡ are_distinct self.now) }
    {
        match self.declared.as_slice() {
            [] | [_] => Ok(None),
            [first, second] => Ok(same_again(first, second)),
            _ => self.again_of_many(alloc),
        }
    }

    // The same, by the names so far.
    #[tactic(auto, using(crate::proofs::Again::new_are_distinct))]
    fn again_of_many(&self, alloc: Global) -> Result<Option<usize>, AllocError>
        ensures { IfOk result (λ at. is_none at ≡ are_distinct self.now) }
    {
        let mut noted = Noted::new(alloc);
        for identifier in &self.declared {
            let is_new = noted.note(alloc, identifier)?;
            if !is_new {
                return Ok(Some(identifier.at));
            }
        }
        Ok(None)
    }
}

// The place of the second of two identifiers, if it has the name of the first.
fn same_again(first: &Identifier, second: &Identifier) -> Option<usize>
    ensures { is_none result ≡ are_distinct (identifier_view first.now ∷ identifier_view second.now ∷ []) }
{
    if is_same_name(second.text.as_str(), first.text.as_str()) {
        Some(second.at)
    } else {
        None
    }
}

// The lesser of two places, or the only one.
fn earlier(one: Option<usize>, other: Option<usize>) -> Option<usize>
    ensures { is_none result ≡ (is_none one && is_none other) }
{
    let Some(first) = one else {
        return other;
    };
    let Some(second) = other else {
        return one;
    };
    if second < first { other } else { one }
}

/// The least place of an identifier whose name an earlier one of its region has. Err where memory was refused.
pub(crate) fn first_again(alloc: Global, regions: &Vec<Region>) -> Result<Option<usize>, AllocError>
    ensures { IfOk result (λ at. is_none at ≡ list_all are_distinct regions.now.items) }
{
    let mut least = None;
    for region in regions {
        least = earlier(least, region.again(alloc)?);
    }
    Ok(least)
}
