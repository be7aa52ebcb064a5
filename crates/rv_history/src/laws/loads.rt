//! Loads: how many there are, and what one leaves as it was.

ghost use Rattle.std.specs.Prelude.{◌≡◌, ◌++◌, ℕ, List, Some, length};
ghost use Rattle.rv_shape.specs.Catalogue.{OnProtected, Site, UnitObject, place, target};
ghost use Rattle.rv_event.specs.Past.{scalars, under_way, unsettled};
ghost use Rattle.rv_shape.specs.Shape.{Shape};
ghost use Rattle.rv_history.specs.History.{History, loads};
ghost use Rattle.rv_history.specs.Legal.{Legal};

/// There are as many shapes as loads.
#[tactic(auto, using(crate::proofs::Versions::shapes_counted))]
pub fn shapes_are_as_many_as_loads()
    ensures { (h : History) → Legal h → loads h.past ≡ length h.shapes }
{}

/// What is under way stays when more shapes are loaded.
#[tactic(auto, using(crate::proofs::Loaded::under_way_stays))]
pub fn bodies_stay()
    ensures { (h : History) (more : List Shape) → Legal h →
        under_way (h.shapes ++ more) h.past ≡ under_way h.shapes h.past }
{}

/// So do the bodies whose ends left their objects unsettled.
#[tactic(auto, using(crate::proofs::Loaded::unsettled_stays))]
pub fn unsettled_objects_stay()
    ensures { (h : History) (more : List Shape) → Legal h →
        unsettled (h.shapes ++ more) h.past ≡ unsettled h.shapes h.past }
{}

/// So do the scalars of each object that there is.
#[tactic(auto, using(crate::proofs::Loaded::scalars_stay))]
pub fn scalars_stay()
    ensures { (h : History) (more : List Shape) (object : ℕ) (at : UnitObject) →
        Legal h → place h.shapes object ≡ Some at →
        scalars (h.shapes ++ more) object h.past ≡ scalars h.shapes object h.past }
{}

/// An operation of a protected object keeps its numbers.
#[tactic(auto, using(crate::proofs::Loaded::protected_stays))]
pub fn protected_operations_stay()
    ensures { (old more : List Shape) (object operation : ℕ) (site : Site) →
        target old object operation ≡ OnProtected site →
        target (old ++ more) object operation ≡ OnProtected site }
{}
