//! What the acts of a script come to: a deed, or a fault that stands against it.

ghost use Rattle.std.specs.Prelude.{◌≡◌, IfOk, IfErr};
ghost use Rattle.rv_access.specs.Reading.{list_of};
ghost use Rattle.rv_shape.specs.Fits.{fault};
ghost use Rattle.rv_shape.specs.ShapeText.{shape_of};
ghost use Rattle.rv_script.specs.UnitTexts.{without_returns};
ghost use Rattle.rv_play.specs.Acts.{Compiles, Goes, Steps, load_act, set_act};
ghost use Rattle.rv_play.specs.Stages.{deed_text};
ghost use Rattle.rv_play.specs.Scripted.{playing};
ghost use Rattle.rv_play.specs.Deeds.{Comes, ComesToDeed, goes, just, if_fits, requests, asks, changes};

use crate::deed::Deed;
use crate::player::Player;
use rv_access::{Change, ListFault};
use rv_code::Unit;
use rv_fault::{Failure, What, list_of, refused, shape_of, unit_of};
use rv_shape::catalogue::Catalogue;
use rv_shape::shape::UnitShape;
use rv_step::lookup::{actor_of, request_of};
use rv_step::step::{Asked, Asker};
use std::alloc::Global;

// What loading a shape that was read comes to.
fn load_deed(
    alloc: Global,
    catalogue: &Catalogue,
    line: usize,
    shape: UnitShape,
) -> Result<Deed, Failure>
    ensures { Comes line (just (if_fits shape (fault catalogue.now shape))) result }
{
    if let Some(fault) = catalogue.shape_fits(&shape) {
        return Err(refused(line, What::Shape(fault)));
    }
    let unit = Unit::of_shape(alloc, shape)?;
    Ok(Deed::load(unit))
}

/// What the unit text of a section comes to, which opens at a line.
pub fn unit_deed(alloc: Global, player: &Player, line: usize, text: &str) -> Result<Deed, Failure>
    ensures { Comes line (ComesToDeed (playing player.now).stage (Compiles line (without_returns text.now))) result }
{
    let unit = unit_of(alloc, player.catalogue(), line, text)?;
    Ok(Deed::load(unit))
}

/// What the shape of a section comes to, which opens at a line.
pub fn shape_deed(alloc: Global, player: &Player, line: usize, text: &str) -> Result<Deed, Failure>
    ensures { Comes line (ComesToDeed (playing player.now).stage (load_act line (shape_of text.now))) result }
{
    let shape = shape_of(alloc, line, text)?;
    load_deed(alloc, player.catalogue(), line, shape)
}

/// What the list of a section comes to, which opens at a line.
pub fn list_deed(alloc: Global, player: &Player, line: usize, text: &str) -> Result<Deed, Failure>
    ensures { Comes line (ComesToDeed (playing player.now).stage (set_act line (list_of text.now))) result }
{
    let list = list_of(alloc, line, text)?;
    Ok(Deed::set(alloc, list))
}

// What a request comes to, of this actor.
fn request_deed(
    alloc: Global,
    catalogue: &Catalogue,
    line: usize,
    actor: usize,
    asked: &Asked,
) -> Result<Deed, Failure>
    ensures { Comes line (just (requests catalogue.now asked.now actor)) result }
{
    match request_of(alloc, catalogue, asked)? {
        Some(request) => Ok(Deed::ask(alloc, actor, request)),
        None => Err(refused(line, What::UnknownName)),
    }
}

// What a change of one line of the list comes to, which the step names by this number.
fn change_deed(
    alloc: Global,
    line: usize,
    actor: usize,
    change: Result<Change, ListFault>,
    number: i64,
) -> Result<Deed, Failure>
    ensures { Comes line (just (changes actor change number)) result }
{
    match change {
        Ok(change) => Ok(Deed::change(alloc, actor, change, number)),
        Err(fault) => Err(refused(line, What::List(fault))),
    }
}

// What an actor asks.
fn asked_deed(
    alloc: Global,
    catalogue: &Catalogue,
    line: usize,
    actor: usize,
    asked: Asked,
) -> Result<Deed, Failure>
    ensures { Comes line (just (asks catalogue.now asked actor)) result }
{
    match asked {
        Asked::Change(change, number) => change_deed(alloc, line, actor, change, number),
        asked => request_deed(alloc, catalogue, line, actor, &asked),
    }
}

/// What a step comes to that is no `go`.
pub fn step_deed(
    alloc: Global,
    player: &Player,
    line: usize,
    asker: &Asker,
    asked: Asked,
) -> Result<Deed, Failure>
    ensures { Comes line (ComesToDeed (playing player.now).stage
        (Steps line (record { asker = asker.now; asked = asked }))) result }
{
    let catalogue = player.catalogue();
    match actor_of(alloc, catalogue, asker)? {
        Some(actor) => asked_deed(alloc, catalogue, line, actor, asked),
        None => Err(refused(line, What::UnknownName)),
    }
}

// What a `go` of this actor comes to.
fn asking_deed(alloc: Global, player: &mut Player, actor: usize) -> Result<Deed, Failure>
    ensures ok { IfOk result (λ d. deed_text d ≡ goes (playing player.old).stage actor) }
    ensures err { IfErr result (λ failure. failure ≡ Failure.Memory) }
    ensures same { playing player.new ≡ playing player.old }
{
    let request = player.asks(actor)?;
    Ok(Deed::go(alloc, actor, request))
}

/// What one `go` comes to.
pub fn go_deed(
    alloc: Global,
    player: &mut Player,
    line: usize,
    asker: &Asker,
) -> Result<Deed, Failure>
    ensures comes { Comes line (ComesToDeed (playing player.old).stage (Goes line asker.now)) result }
    ensures same { playing player.new ≡ playing player.old }
{
    match actor_of(alloc, player.catalogue(), asker)? {
        Some(actor) => asking_deed(alloc, player, actor),
        None => Err(refused(line, What::UnknownName)),
    }
}
