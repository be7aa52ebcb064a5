//! Laws of values in range, each on a function that does nothing.

ghost use Rattle.std.specs.Prelude.{◌≡◌, ◌++◌, ◌∷◌, [], List, length, true};
ghost use Rattle.rv_shape.specs.Catalogue.{all_objects};
ghost use Rattle.rv_shape.specs.Shape.{Shape};
ghost use Rattle.rv_shape.specs.declared.object.Object.{Object};
ghost use Rattle.rv_code.specs.Bodies.{UnitBodies};
ghost use Rattle.rv_ranged.specs.Ranged.{ranges_fit, catalogue_ranged};

/// Bodies whose values lie in their ranges stay so when more units are loaded.
pub fn ranges_keep_fitting()
    ensures { (old more : List Shape) (objects : List Object) (bodies : UnitBodies) →
        ranges_fit old objects bodies ≡ true → ranges_fit (old ++ more) objects bodies ≡ true }
{}

/// So the bodies of a catalogue are ranged with those of one unit more, which were looked at over it.
pub fn ranges_join()
    ensures { (old : List Shape) (shape : Shape) (bodies unit : UnitBodies) →
        length bodies.objects ≡ length (all_objects old) → catalogue_ranged old bodies ≡ true →
        ranges_fit (old ++ shape ∷ []) shape.objects unit ≡ true →
        catalogue_ranged (old ++ shape ∷ []) (record { objects = bodies.objects ++ unit.objects; tasks = bodies.tasks ++ unit.tasks }) ≡ true }
{}
