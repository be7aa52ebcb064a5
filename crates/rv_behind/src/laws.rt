//! A law of the host behind the turn, on a function that does nothing.

ghost use Rattle.rv_behind.specs.Acting.{BodiesStayFit};

/// Behind each act each unit has bodies of its own and the calls of all bodies fit the units still: a load brings none that
/// don't.
#[tactic(auto, using(crate::proofs::Fitting::stay_fit))]
pub fn bodies_stay_fit()
    ensures { BodiesStayFit }
{}
