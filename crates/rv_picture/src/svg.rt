//! A timeline as SVG: one file, without a script. What a bar stands for is its title, which viewers show where a pointer rests on it.

ghost use Rattle.std.specs.Prelude.{◌≡◌, ◌++◌, IfOk, OnOk, length, option_copied, slice_get, string_bytes};
ghost use Rattle.rv_picture.specs.Svg.{axis, bar_text, bars_text, class, end_of, end_text, field_of, field_text, first_number, head, lane_in, lane_text, lanes_text, last_number, mark_text, number_in, rect_text, strip, svg_lanes, svg_of, svg_text, svg_with, width_of};

use crate::bar::{Bar, Frame, Kind, Moment, in_frame, within};
use crate::lane::{Lane, lane_name, lanes, of_lane};
use crate::titles::title;
use rv_shape::catalogue::Catalogue;
use std::alloc::{AllocError, Global};

// Colours and letters of the picture, what each colour stands for, and its white ground.
const STYLE: &str =
    "<style>text { font: 12px monospace; fill: #333 } .scale { fill: #777 } .wait { fill: #f0b429 } .body { fill: #3b7dd8 } .delay { fill: #b9c4d0 } .refused { fill: #d64545 } .ground { fill: #fff }</style>\n<rect class='ground' width='100%' height='100%'/>\n<rect class='body' x='8' y='6' width='12' height='10'/><text x='26' y='16'>body</text>\n<rect class='wait' x='88' y='6' width='12' height='10'/><text x='106' y='16'>wait</text>\n<rect class='delay' x='168' y='6' width='12' height='10'/><text x='186' y='16'>delay</text>\n<rect class='refused' x='248' y='6' width='12' height='10'/><text x='266' y='16'>refused</text>\n";

// The class of a bar.
fn class(kind: Kind) -> &'static str
    ensures { result.now ≡ class kind }
{
    match kind {
        Kind::Wait => "wait",
        Kind::Body => "body",
        Kind::Delay => "delay",
        Kind::Refused => "refused",
    }
}

// Where a bar stands in the field of its lane: refusals stand above the others, which so hide none of them.
fn strip(kind: Kind) -> &'static str
    ensures { result.now ≡ strip kind }
{
    match kind {
        Kind::Wait => "y='6' height='10'",
        Kind::Body => "y='6' height='10'",
        Kind::Delay => "y='6' height='10'",
        Kind::Refused => "y='0' height='5'",
    }
}

// The number of an entry, 0 where there is none.
fn number_of(moment: Option<&Moment>) -> usize
    ensures { result ≡ number_in (option_copied moment.entry) }
{
    match moment {
        Some(moment) => moment.number,
        None => 0,
    }
}

// The number of the first entry.
fn first_number(moments: &[Moment]) -> usize
    ensures { result ≡ first_number moments.now }
{
    number_of(moments.first())
}

// That of the last one.
fn last_number(moments: &[Moment]) -> usize
    ensures { result ≡ last_number moments.now }
{
    number_of(moments.last())
}

// The entry where a bar ends; of one that lasts the last entry that is shown.
fn end_of(last: usize, end: Option<usize>) -> usize
    ensures { result ≡ end_of last end }
{
    match end {
        Some(end) => end,
        None => last,
    }
}

// How wide a bar is among so many entries, in entries: from the one that begins it to its end, and two of the 1,200 points at least.
fn width_of(count: usize, number: usize, end: usize) -> usize
    ensures { result ≡ width_of count number end }
{
    let width = end.saturating_sub(number);
    let least = count / 600 + 1;
    if width < least { least } else { width }
}

// Puts a bar that begins at an entry and is so wide.
fn put_rect(
    text: &mut String,
    kind: Kind,
    number: usize,
    width: usize,
    title: &str,
) -> Result<(), AllocError>
    ensures { OnOk result (string_bytes text.new ≡ string_bytes text.old ++ rect_text kind number width title.now) }
{
    let class = class(kind);
    let strip = strip(kind);
    write!(
        text,
        "<rect class='{class}' {strip} x='{number}' width='{width}'><title>{title}</title></rect>\n"
    )
}

// Puts a bar; one that lasts reaches to the last entry that is shown.
fn put_bar(
    alloc: Global,
    text: &mut String,
    catalogue: &Catalogue,
    count: usize,
    last: usize,
    bar: &Bar,
) -> Result<(), AllocError>
    ensures { OnOk result (string_bytes text.new ≡ string_bytes text.old ++ bar_text catalogue.now count last bar.now) }
{
    let title = title(alloc, catalogue, bar)?;
    let number = bar.begun.number;
    let width = width_of(count, number, end_of(last, bar.last));
    put_rect(text, bar.kind, number, width, title.as_str())
}

// Puts bars.
fn put_bars(
    alloc: Global,
    text: &mut String,
    catalogue: &Catalogue,
    count: usize,
    last: usize,
    bars: &[Bar],
) -> Result<(), AllocError>
    ensures { OnOk result (string_bytes text.new ≡ string_bytes text.old ++ bars_text catalogue.now count last bars.now) }
{
    for bar in bars {
        put_bar(alloc, text, catalogue, count, last, bar)?;
    }
    Ok(())
}

// Puts the name of a lane, and opens its field, whose scale is the numbers of entries.
fn put_field(
    text: &mut String,
    place: usize,
    first: usize,
    count: usize,
    name: &str,
) -> Result<(), AllocError>
    ensures { OnOk result (string_bytes text.new ≡ string_bytes text.old ++ field_text place first count name.now) }
{
    let base = (place as u128) * 36 + 56;
    let top = (place as u128) * 36 + 60;
    write!(
        text,
        "<text x='8' y='{base}'>{name}</text>\n<svg x='8' y='{top}' width='1200' height='16' viewBox='{first} 0 {count} 16' preserveAspectRatio='none'>\n"
    )
}

// Those of a lane over entries.
fn put_field_of(
    alloc: Global,
    text: &mut String,
    catalogue: &Catalogue,
    moments: &[Moment],
    lane: &Lane,
) -> Result<(), AllocError>
    ensures { OnOk result (string_bytes text.new ≡ string_bytes text.old ++ field_of catalogue.now moments.now lane.now) }
{
    let name = lane_name(alloc, catalogue, lane.actor, lane.object)?;
    put_field(
        text,
        lane.place,
        first_number(moments),
        moments.len(),
        name.as_str(),
    )
}

// Puts bars over entries.
fn put_bars_over(
    alloc: Global,
    text: &mut String,
    catalogue: &Catalogue,
    moments: &[Moment],
    bars: &[Bar],
) -> Result<(), AllocError>
    ensures { OnOk result (string_bytes text.new ≡ string_bytes text.old
        ++ bars_text catalogue.now (length moments.now) (last_number moments.now) bars.now) }
{
    put_bars(
        alloc,
        text,
        catalogue,
        moments.len(),
        last_number(moments),
        bars,
    )
}

// Closes a field, or the picture.
fn put_end(text: &mut String) -> Result<(), AllocError>
    ensures { OnOk result (string_bytes text.new ≡ string_bytes text.old ++ end_text) }
{
    text.push_str("</svg>\n")
}

// Puts a lane with these bars.
fn put_lane(
    alloc: Global,
    text: &mut String,
    catalogue: &Catalogue,
    moments: &[Moment],
    bars: &[Bar],
    lane: &Lane,
) -> Result<(), AllocError>
    ensures { OnOk result (string_bytes text.new ≡ string_bytes text.old ++ lane_text catalogue.now moments.now bars.now lane.now) }
{
    put_field_of(alloc, text, catalogue, moments, lane)?;
    put_bars_over(alloc, text, catalogue, moments, bars)?;
    put_end(text)
}

// Puts a lane, with those of these bars that are in it.
fn put_lane_in(
    alloc: Global,
    text: &mut String,
    catalogue: &Catalogue,
    moments: &[Moment],
    bars: &[Bar],
    lane: &Lane,
) -> Result<(), AllocError>
    ensures { OnOk result (string_bytes text.new ≡ string_bytes text.old ++ lane_in catalogue.now moments.now bars.now lane.now) }
{
    let mine = of_lane(alloc, lane.actor, lane.object, bars)?;
    put_lane(alloc, text, catalogue, moments, mine.as_slice(), lane)
}

// Puts lanes.
fn put_lanes(
    alloc: Global,
    text: &mut String,
    catalogue: &Catalogue,
    moments: &[Moment],
    bars: &[Bar],
    lanes: &[Lane],
) -> Result<(), AllocError>
    ensures { OnOk result (string_bytes text.new ≡ string_bytes text.old ++ lanes_text catalogue.now moments.now bars.now lanes.now) }
{
    for lane in lanes {
        put_lane_in(alloc, text, catalogue, moments, bars, lane)?;
    }
    Ok(())
}

// Puts the number and the tick of an entry above the lanes, if there is one.
fn put_mark(text: &mut String, x: &str, moment: Option<&Moment>) -> Result<(), AllocError>
    ensures { OnOk result (string_bytes text.new ≡ string_bytes text.old ++ mark_text x.now (option_copied moment.entry)) }
{
    let Some(moment) = moment else {
        return Ok(());
    };
    let number = moment.number;
    let tick = moment.tick;
    write!(
        text,
        "<text class='scale' x='{x}' y='36'>entry {number}, tick {tick}</text>\n"
    )
}

// The same of the entry at a place, from 0.
fn put_mark_at(
    text: &mut String,
    x: &str,
    moments: &[Moment],
    place: usize,
) -> Result<(), AllocError>
    ensures { OnOk result (string_bytes text.new ≡ string_bytes text.old ++ mark_text x.now (slice_get moments.now place)) }
{
    put_mark(text, x, moments.get(place))
}

// Puts those of the entries at each quarter of the width.
fn put_axis(text: &mut String, moments: &[Moment]) -> Result<(), AllocError>
    ensures { OnOk result (string_bytes text.new ≡ string_bytes text.old ++ axis moments.now) }
{
    let count = moments.len();
    put_mark_at(text, "8", moments, 0)?;
    put_mark_at(text, "308", moments, count / 4)?;
    put_mark_at(text, "608", moments, count / 2)?;
    put_mark_at(text, "908", moments, count / 4 * 3 + count % 4 * 3 / 4)
}

// Puts what stands above so many lanes.
fn put_head(text: &mut String, count: usize) -> Result<(), AllocError>
    ensures { OnOk result (string_bytes text.new ≡ string_bytes text.old ++ head count) }
{
    let height = (count as u128) * 36 + 60;
    write!(
        text,
        "<svg xmlns='http://www.w3.org/2000/svg' width='1216' height='{height}'>\n<title>Timeline</title>\n{STYLE}"
    )
}

// Puts what stands above these lanes.
fn put_head_over(text: &mut String, lanes: &[Lane]) -> Result<(), AllocError>
    ensures { OnOk result (string_bytes text.new ≡ string_bytes text.old ++ head (length lanes.now)) }
{
    put_head(text, lanes.len())
}

// Puts the picture of these bars in these lanes.
fn put_svg_lanes(
    alloc: Global,
    text: &mut String,
    catalogue: &Catalogue,
    moments: &[Moment],
    bars: &[Bar],
    lanes: &[Lane],
) -> Result<(), AllocError>
    ensures { OnOk result (string_bytes text.new ≡ string_bytes text.old ++ svg_lanes catalogue.now moments.now bars.now lanes.now) }
{
    put_head_over(text, lanes)?;
    put_axis(text, moments)?;
    put_lanes(alloc, text, catalogue, moments, bars, lanes)?;
    put_end(text)
}

// Puts the picture of these bars in their lanes.
fn put_svg_with(
    alloc: Global,
    text: &mut String,
    catalogue: &Catalogue,
    moments: &[Moment],
    bars: &[Bar],
) -> Result<(), AllocError>
    ensures { OnOk result (string_bytes text.new ≡ string_bytes text.old ++ svg_with catalogue.now moments.now bars.now) }
{
    let lanes = lanes(alloc, catalogue, bars)?;
    put_svg_lanes(alloc, text, catalogue, moments, bars, lanes.as_slice())
}

// Puts the picture of those of these bars that have a part in the entries.
fn put_svg(
    alloc: Global,
    text: &mut String,
    catalogue: &Catalogue,
    moments: &[Moment],
    bars: &[Bar],
) -> Result<(), AllocError>
    ensures { OnOk result (string_bytes text.new ≡ string_bytes text.old ++ svg_of catalogue.now moments.now bars.now) }
{
    let shown = within(alloc, moments, bars)?;
    put_svg_with(alloc, text, catalogue, moments, shown.as_slice())
}

/// A timeline as an SVG picture: a lane above the other, and each bar from the entry that begins it to the one that ends it. Err where memory
/// was refused.
pub fn svg(
    alloc: Global,
    frame: &Frame,
    catalogue: &Catalogue,
    moments: &[Moment],
    bars: &[Bar],
) -> Result<String, AllocError>
    ensures { IfOk result (λ text. string_bytes text ≡ svg_text frame.now catalogue.now moments.now bars.now) }
{
    let mut text = String::new(alloc);
    let shown = in_frame(alloc, frame, moments)?;
    put_svg(alloc, &mut text, catalogue, shown.as_slice(), bars)?;
    Ok(text)
}
