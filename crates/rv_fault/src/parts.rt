//! Reads a script part by part. Whoever walks over the sections of a script does it here, and asks nothing but what each part
//! opens.

ghost use Rattle.std.specs.Prelude.{◌≡◌, ◌∷◌, [], IfNone, IfSome};
ghost use Rattle.rv_script.specs.Openings.{AreNumbered};
ghost use Rattle.rv_fault.specs.Parts.{section_of};

use crate::part::Part;
use rv_script::opening_of;
use rv_text::Sections;
use std::marker::Model;

/// The parts that are left of a script, in order. A contract sees the sections that they are.
#[derive(Drop)]
pub struct Parts<'a> {
    sections: Sections<'a>,
}

impl<'a> Model for Parts<'a> {
    ghost use Rattle.std.specs.Prelude.{List};
    ghost use Rattle.rv_text.specs.Sections.{SectionText};
    ghost use Rattle.rv_script.specs.Openings.{AreNumbered};

    ghost Value = { List SectionText };

    ghost view = { λ p. p.sections };

    ghost invariant = { λ p. AreNumbered p.sections };
}

impl<'a> Parts<'a> {
    /// The parts that sections are.
    pub fn of(sections: Sections<'a>) -> Parts<'a>
        requires { AreNumbered sections }
        ensures { result ≡ sections.entry }
    {
        Parts { sections }
    }

    /// Takes the first part, if one is left.
    pub fn next_part(&mut self) -> Option<Part<'a>>
        ensures none { IfNone result ((self.old ≡ []) × (self.new ≡ [])) }
        ensures first { IfSome result (λ part. self.old ≡ section_of part ∷ self.new) }
    {
        let section = self.sections.next_section()?;
        Some(Part {
            line: section.line,
            opening: opening_of(section.opening),
            heading: section.opening,
            text: section.text,
        })
    }
}
