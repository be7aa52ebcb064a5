//! What of that which lasts a filter takes.

ghost use Rattle.std.specs.Prelude.{◌≡◌, IfOk, OnOk};
ghost use Rattle.rv_event.specs.Lent.{whole};
ghost use Rattle.rv_event.specs.Past.{clock};
ghost use Rattle.rv_lasting.specs.Tracks.{ended};
ghost use Rattle.rv_waits.specs.Following.{turned};
ghost use Rattle.rv_waits.specs.Lasting.{freed_by, if_taken, takes, with_span};

use rv_event::entry::EntryRef;
use rv_event::one_entry::named;
use rv_host::host::Host;
use rv_lasting::entries::set_on;
use rv_lasting::track::{Begun, Track};
use rv_refused::Filter;
use rv_shape::catalogue::Catalogue;
use std::alloc::{AllocError, Global};

/// Whether a filter takes it. Err where memory was refused.
pub fn takes(
    alloc: Global,
    filter: &Filter<'_>,
    catalogue: &Catalogue,
    it: &Begun,
) -> Result<bool, AllocError>
    ensures { IfOk result (λ taken. taken ≡ takes filter.now catalogue.now it.now) }
{
    let call = it.call;
    if !filter.is_since(it.number, it.tick) {
        return Ok(false);
    }
    if !filter.takes_by(alloc, &catalogue.who(call.actor))? {
        return Ok(false);
    }
    filter.takes_of(alloc, &catalogue.callee(call.object, call.operation))
}

// The same of one that may be.
fn if_taken(
    alloc: Global,
    filter: &Filter<'_>,
    catalogue: &Catalogue,
    it: Option<Begun>,
) -> Result<Option<Begun>, AllocError>
    ensures { IfOk result (λ taken. taken ≡ if_taken filter.now catalogue.now it) }
{
    let Some(it) = it else {
        return Ok(None);
    };
    if takes(alloc, filter, catalogue, &it)? {
        return Ok(Some(it));
    }
    Ok(None)
}

// What ended at this tick is counted, if one did.
fn count(track: &mut Track, tick: u64, it: Option<Begun>) -> Result<(), AllocError>
    ensures { OnOk result (track.new ≡ record track.old { spans = with_span tick it track.old.spans }) }
{
    match it {
        Some(it) => track.count(it.span_at(tick)),
        None => Ok(()),
    }
}

/// The newest of an actor ends, if one's does, and one begins, if one does. The one that ended, if the filter takes it.
pub fn turn(
    alloc: Global,
    filter: &Filter<'_>,
    host: &Host,
    track: &mut Track,
    actor: Option<usize>,
    begun: Option<Begun>,
) -> Result<Option<Begun>, AllocError>
    ensures track { OnOk result (track.new ≡ turned filter.now host.now.shapes (clock host.now.past) actor begun track.old) }
    ensures ended { IfOk result (λ it. it ≡ if_taken filter.now host.now.shapes (ended actor track.old.begun)) }
{
    let it = if_taken(alloc, filter, host.catalogue(), track.end(actor))?;
    count(track, host.clock(), it)?;
    track.begin(begun)?;
    Ok(it)
}

/// The actor whose wait an entry ends: it is handed the object or dropped (9.5.3), or released by a Set_True (D.10).
pub fn freed_by(host: &Host, entry: &EntryRef<'_>) -> Option<usize>
    ensures { result ≡ freed_by host.now.past (whole entry.now) }
{
    if let Some(actor) = named(entry) {
        return Some(actor);
    }
    match set_on(entry) {
        Some(object) => host.waiter(object),
        None => None,
    }
}
