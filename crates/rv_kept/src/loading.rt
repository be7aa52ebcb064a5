//! Loading a unit with its bodies.

ghost use Rattle.rv_code.specs.BodyView.{unit_view};
ghost use Rattle.rv_kept.specs.Keeping.{Loads};

use crate::kept::Kept;
use rv_code::Unit;
use rv_event::entry::Answer;
use std::alloc::Global;

impl Kept {
    /// Loads a unit with its bodies, by the operator: what `Host::load` answers. Where it is accepted the bodies are there.
    /// OutOfMemory where memory is refused; then nothing is changed.
    pub fn load(&mut self, alloc: Global, unit: Unit) -> Answer
        ensures { Loads unit.shape (unit_view unit.bodies) self.old self.new result }
    {
        let Unit { shape, bodies } = unit;
        let Ok(more) = self.texts.ready(alloc, bodies) else {
            return Answer::OutOfMemory;
        };
        let answer = self.host.load(&shape);
        let Some(_) = answer.recorded() else {
            return answer;
        };
        self.texts.go_on_with(more);
        answer
    }
}
