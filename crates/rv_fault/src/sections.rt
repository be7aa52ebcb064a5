//! What the sections of a script hold: each is read, or refused at the line of its opening.

ghost use Rattle.std.specs.Prelude.{◌≡◌, option_map};
ghost use Rattle.rv_access.specs.Reading.{list_of};
ghost use Rattle.rv_shape.specs.ShapeText.{shape_of};
ghost use Rattle.rv_script.specs.UnitTexts.{without_returns};
ghost use Rattle.rv_fault.specs.Sections.{GivesSettings, GivesUnit, Just, Reads, if_list, if_shape, line_of};

use crate::failure::{Failure, refused};
use crate::fault::What;
use rv_access::{AccessList, ListFault, read_list};
use rv_script::unit_text::{MOST_UNIT_BYTES, unit_text};
use rv_settings::{Settings, SettingsFault, read_settings};
use rv_shape::catalogue::Catalogue;
use rv_shape::fault::ShapeFault;
use rv_shape::reading::read_shape;
use rv_shape::shape::UnitShape;
use rv_text::Section;
use rv_unit::{Unit, UnitFault, compile};
use std::alloc::Global;

/// The line at which faults of settings are told: that where their section opens, or the first.
pub fn settings_line(settings: &Option<Section<'_>>) -> usize
    ensures { result ≡ line_of (option_map (λ s. record { line = s.line; opening = s.opening.now; text = s.text.now }) settings.now) }
{
    match settings {
        Some(section) => section.line,
        None => 1,
    }
}

/// The settings of a script; those for which nothing is set, where it has none.
pub fn settings_of(alloc: Global, settings: &Option<Section<'_>>) -> Result<Settings, Failure>
    ensures { let section = option_map (λ s. record { line = s.line; opening = s.opening.now; text = s.text.now }) settings.now in
        Reads (line_of section) (GivesSettings section) result }
{
    let Some(section) = settings else {
        return Ok(Settings::defaults(alloc));
    };
    match read_settings(alloc, section.text) {
        Ok(settings) => Ok(settings),
        Err(SettingsFault::NoMemory) => Err(Failure::Memory),
        Err(fault) => Err(refused(section.line, What::Settings(fault))),
    }
}

/// The unit of a text that has no carriage return before a line feed, over those that are loaded. Its section
/// opens at a line.
pub fn text_unit(
    alloc: Global,
    catalogue: &Catalogue,
    line: usize,
    text: &str,
) -> Result<Unit, Failure>
    ensures { Reads line (GivesUnit catalogue.now text.now) result }
{
    if text.len() > MOST_UNIT_BYTES {
        return Err(refused(line, What::TooLong));
    }
    match compile(alloc, text, catalogue) {
        Ok(unit) => Ok(unit),
        Err(UnitFault::NoMemory) => Err(Failure::Memory),
        Err(fault) => Err(refused(line, What::Unit(fault))),
    }
}

/// The unit of the text of a section, which opens at a line, over those that are loaded.
pub fn unit_of(
    alloc: Global,
    catalogue: &Catalogue,
    line: usize,
    text: &str,
) -> Result<Unit, Failure>
    ensures { Reads line (GivesUnit catalogue.now (without_returns text.now)) result }
{
    match unit_text(alloc, text) {
        Ok(text) => text_unit(alloc, catalogue, line, text.as_str()),
        Err(_) => Err(Failure::Memory),
    }
}

/// The shape of the text of a section, which opens at a line. Whether it fits those that are loaded isn't looked at.
pub fn shape_of(alloc: Global, line: usize, text: &str) -> Result<UnitShape, Failure>
    ensures { Reads line (Just (if_shape (shape_of text.now))) result }
{
    match read_shape(alloc, text) {
        Ok(shape) => Ok(shape),
        Err(ShapeFault::NoMemory) => Err(Failure::Memory),
        Err(fault) => Err(refused(line, What::Shape(fault))),
    }
}

/// The list of the text of a section, which opens at a line.
pub fn list_of(alloc: Global, line: usize, text: &str) -> Result<AccessList, Failure>
    ensures { Reads line (Just (if_list (list_of text.now))) result }
{
    match read_list(alloc, text) {
        Ok(list) => Ok(list),
        Err(ListFault::NoMemory) => Err(Failure::Memory),
        Err(fault) => Err(refused(line, What::List(fault))),
    }
}
