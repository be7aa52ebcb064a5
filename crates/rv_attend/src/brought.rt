//! Whether the capacity of a run is enough for what its script brings, whether or not there was room for that.

ghost use Rattle.std.specs.Prelude.{◌≤◌};
ghost use Rattle.rv_script.specs.Openings.{AreNumbered};

use crate::archiving::is_enough;
use crate::attention::Attention;
use crate::reserve::{Reserve, is_kept};
use rv_fault::{Part, Parts, unit_of};
use rv_script::{Opening, open, text_of};
use rv_shape::catalogue::Catalogue;
use rv_staff::Session;
use rv_text::Sections;
use std::alloc::Global;
use std::io::Write;

// What the sections of a script bring.
#[derive(Clone, Copy, Drop)]
struct Brought {
    // How many are units.
    units: usize,
    // How many are lists.
    lists: u32,
}

impl Brought {
    // How many sections these are.
    fn sections(self) -> usize
        ensures { result ≤ 1_000_000_000 }
    {
        self.units
            .saturating_add(self.lists as usize)
            .min(MOST_SECTIONS)
    }

    // The same with a part more.
    fn with(self, opening: Option<Opening>) -> Brought {
        let Brought { units, lists } = self;
        match opening {
            Some(Opening::UnitText) => Brought {
                units: units.saturating_add(1),
                lists,
            },
            Some(Opening::AccessList) => Brought {
                units,
                lists: lists.saturating_add(1),
            },
            _ => self,
        }
    }
}

// No script has as many sections.
const MOST_SECTIONS: usize = 1_000_000_000;

const NOTHING: Brought = Brought { units: 0, lists: 0 };

// What sections bring.
fn count(sections: Sections<'_>) -> Brought
    requires { AreNumbered sections }
{
    let mut parts = Parts::of(sections);
    let mut brought = NOTHING;
    'each: while let Some(part) = parts.next_part() {
        brought = brought.with(part.opening);
    }
    brought
}

// What the sections of these bytes bring; of what is no script, nothing.
fn brought_by(bytes: &[u8]) -> Brought {
    let Ok(text) = text_of(bytes) else {
        return NOTHING;
    };
    match open(text) {
        Ok(script) => count(script.sections),
        Err(_) => NOTHING,
    }
}

// Adds the unit of a part, where it is one that fits those that are there.
fn add(alloc: Global, units: &mut Catalogue, part: &Part<'_>) {
    if let Some(Opening::UnitText) = part.opening {
        if let Ok(unit) = unit_of(alloc, units, part.line, part.text) {
            let _ = units.add(&unit.shape);
        }
    }
}

// Adds the units that sections bring.
fn add_all(alloc: Global, units: &mut Catalogue, sections: Sections<'_>)
    requires { AreNumbered sections }
{
    let mut parts = Parts::of(sections);
    'each: while let Some(part) = parts.next_part() {
        add(alloc, units, &part);
    }
}

// The units that the sections of these bytes bring.
fn units_of(alloc: Global, bytes: &[u8]) -> Catalogue {
    let mut units = Catalogue::new(alloc);
    if let Ok(text) = text_of(bytes) {
        if let Ok(script) = open(text) {
            add_all(alloc, &mut units, script.sections);
        }
    }
    units
}

// Adds the units that are loaded, where they aren't there yet: those of devices.
fn add_loaded(units: &mut Catalogue, loaded: &Catalogue) {
    for shape in loaded.shapes() {
        let _ = units.add(shape);
    }
}

// Whether the capacity is enough for what a run keeps with these units; where it isn't, that is said.
fn is_capacity_for<E: Write>(
    session: &Session,
    asked: &Attention,
    units: &Catalogue,
    brought: Brought,
    reserve: &mut Reserve,
    errors: &mut E,
) -> bool {
    is_enough(session, asked, units, brought.sections(), errors)
        && is_kept(session, asked, units, brought.lists, reserve, errors)
}

/// Whether the capacity is enough for what a run keeps, with all units that its script brings; where it isn't, that is said.
pub(crate) fn is_capacity<E: Write>(
    session: &Session,
    asked: &Attention,
    bytes: &[u8],
    reserve: &mut Reserve,
    errors: &mut E,
) -> bool {
    let brought = brought_by(bytes);
    let loaded = session.staff.catalogue();
    if brought.units <= loaded.shapes().len() {
        return is_capacity_for(session, asked, loaded, brought, reserve, errors);
    }
    let mut units = units_of(session.alloc, bytes);
    add_loaded(&mut units, loaded);
    is_capacity_for(session, asked, &units, brought, reserve, errors)
}
