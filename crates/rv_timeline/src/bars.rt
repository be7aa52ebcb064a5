//! Bars are added.

ghost use Rattle.std.specs.Prelude.{◌≡◌, ◌++◌, IfOk, OnOk};
ghost use Rattle.rv_waits.specs.Lasting.{if_taken};
ghost use Rattle.rv_timeline.specs.Timelines.{bar_if, lasting_bar, lasting_bars};

use rv_lasting::track::Begun;
use rv_picture::bar::{Bar, Kind};
use rv_refused::Filter;
use rv_shape::catalogue::Catalogue;
use rv_waits::taking::takes;
use std::alloc::{AllocError, Global};

/// What began, if a filter takes it. Err where memory was refused.
pub fn if_taken(
    alloc: Global,
    filter: &Filter<'_>,
    catalogue: &Catalogue,
    it: Option<Begun>,
) -> Result<Option<Begun>, AllocError>
    ensures { IfOk result (λ taken. taken ≡ if_taken filter.now catalogue.now it) }
{
    let Some(it) = it else {
        return Ok(None);
    };
    if takes(alloc, filter, catalogue, &it)? {
        return Ok(Some(it));
    }
    Ok(None)
}

/// Adds the bar of what began, up to an entry, if by one, and a tick. Err where memory was refused.
pub fn add_bar(
    bars: &mut Vec<Bar>,
    kind: Kind,
    it: Option<Begun>,
    last: Option<usize>,
    to: u64,
) -> Result<(), AllocError>
    ensures { OnOk result (bars.new.items ≡ bars.old.items ++ bar_if kind it last to) }
{
    if let Some(begun) = it {
        bars.push(Bar {
            kind,
            begun,
            last,
            to,
        })?;
    }
    Ok(())
}

// Adds the bar of one that is under way at a tick, where the filter takes it.
fn add_lasting_bar(
    alloc: Global,
    bars: &mut Vec<Bar>,
    filter: &Filter<'_>,
    catalogue: &Catalogue,
    kind: Kind,
    tick: u64,
    it: &Begun,
) -> Result<(), AllocError>
    ensures { OnOk result (bars.new.items ≡ bars.old.items ++ lasting_bar kind filter.now catalogue.now tick it.now) }
{
    let taken = if_taken(alloc, filter, catalogue, Some(*it))?;
    add_bar(bars, kind, taken, None, tick)
}

/// Adds the bars of what is under way at a tick and a filter takes, the oldest first, of these, which come the newest first. Err where
/// memory was refused.
pub fn add_lasting_bars(
    alloc: Global,
    bars: &mut Vec<Bar>,
    filter: &Filter<'_>,
    catalogue: &Catalogue,
    kind: Kind,
    tick: u64,
    begun: &[Begun],
) -> Result<(), AllocError>
    ensures { OnOk result (bars.new.items ≡ bars.old.items ++ lasting_bars kind filter.now catalogue.now tick begun.now) }
{
    let [it, begun @ ..] = begun else {
        return Ok(());
    };
    add_lasting_bars(alloc, bars, filter, catalogue, kind, tick, begun)?;
    add_lasting_bar(alloc, bars, filter, catalogue, kind, tick, it)
}
