//! A point of a body: what is declared there, and what names denote.

ghost use Rattle.std.specs.Prelude.{◌≡◌, ◌+◌, ◌-◌, OnOk, ℕ, true};
ghost use Rattle.rv_tree.specs.NameView.{identifier_view, identifiers_view, name_view};
ghost use Rattle.rv_tree.specs.Names.{Identifier as IdentifierView};
ghost use Rattle.rv_scope.specs.Scope.{OnlyDeclares};
ghost use Rattle.rv_scope.specs.Visible.{visible};
ghost use Rattle.rv_types.specs.Blocks.{hidden, revealed};
ghost use Rattle.rv_types.specs.BodiesOf.{point_in};
ghost use Rattle.rv_types.specs.Selectors.{constant_range, constant_subtype, declared_range};
ghost use Rattle.rv_types.specs.Points.{PointView, static_meaning, point_meaning, denotes, denoted_by, profile, profile_of, shows_times, known_in, noting, taking_slot, has_slot, has_constant_slot, taking_constant, has_object_slot, taking_object, behind_parameters, in_bounds as inside_bounds, with_loop_parameter};

use crate::denoted::Denoted;
use crate::locals::Locals;
use crate::names::{denoted_by as denoted_declaration, profile_of as profile_of_declaration};
use crate::refused::Refused;
use crate::setting::Setting;
use rv_outline::outline::Outline;
use rv_scope::declare::{Form, declare_all};
use rv_scope::library_meaning::integers;
use rv_scope::members::hide_all;
use rv_scope::point::{known_meaning, meaning};
use rv_scope::{Declared, Known, Predefined, Scope};
use rv_shape::catalogue::Catalogue;
use rv_shape::kind::{Parameter, Range};
use rv_static::{Meaning, Meanings, TypeFault};
use rv_tree::{Identifier, Name};
use std::alloc::Global;
use std::marker::Model;

// How many variables and loop parameters are open in a body (own).
const MOST_VARIABLES: usize = 64;

// How many constants of a body have a value that isn't static (own).
const MOST_CONSTANTS: usize = 64;

// The subtype of a constant with a static value.
fn constant_range(known: Option<Known>) -> Option<Range>
    ensures { result ≡ constant_range known }
{
    match known {
        Some(Known::Constant(range, _)) => Some(range),
        _ => None,
    }
}

/// What is known of a declaration of a body, by the place of its identifier.
#[derive(Clone, Copy)]
pub struct Local {
    pub at: usize,
    pub known: Known,
}

/// A point of a body: what is declared there.
pub struct Point<'a> {
    pub scope: Scope<'a>,
    catalogue: &'a Catalogue,
    outline: &'a Outline,
    locals: Locals,
    // Whether the operators of Ada.Real_Time are visible.
    times: bool,
    // The next slot, and how many of them parameters and constants have.
    slots: usize,
    parameters: usize,
    constants: usize,
    // The range of the result, in the body of a function.
    result_range: Option<Range>,
}

// One drop of all fields proves quicker than each of them wherever a point is let go.
impl Drop for Point<'_> {
    fn drop(self) {
        self.into_scope();
    }
}

impl<'a> Model for Point<'a> {
    ghost use Rattle.rv_types.specs.Points.{PointView};

    ghost Value = { PointView };

    ghost view = { λ p. record {
      scope = p.scope;
      known = p.outline.now.known;
      locals = p.locals;
      units = p.outline.now.units;
      shapes = p.catalogue.now;
      times = p.times;
      slots = p.slots;
      parameters = p.parameters;
      constants = p.constants;
      result = p.result_range;
    } };
}

impl<'a> Meanings for Point<'a> {
    ghost means = { λ p. static_meaning p };

    #[tactic(auto, unfolding(crate::specs::Points::static_meaning))]
    fn meaning(&self, name: &Name) -> Meaning {
        let found = self.scope.visible(name);
        self.meaning_of(found)
    }
}

impl<'a> Point<'a> {
    /// The beginning of a body, with the range of its result if it is a function's.
    pub(crate) fn new(
        alloc: Global,
        setting: &Setting<'a>,
        scope: Scope<'a>,
        result_range: Option<Range>,
    ) -> Point<'a>
        ensures { result ≡ point_in setting.now scope.entry result_range }
    {
        Point {
            scope,
            catalogue: setting.catalogue,
            outline: setting.outline,
            locals: Locals::new(alloc),
            times: setting.times,
            slots: 0,
            parameters: 0,
            constants: 0,
            result_range,
        }
    }

    /// What is declared there.
    pub(crate) fn into_scope(self) -> Scope<'a>
        ensures { result ≡ self.entry.scope }
    {
        let Point {
            scope,
            catalogue: _,
            outline: _,
            locals: _,
            times: _,
            slots: _,
            parameters: _,
            constants: _,
            result_range: _,
        } = self;
        scope
    }

    /// What is known of a declaration, of the package or of the body.
    pub(crate) fn known(&self, at: usize) -> Option<Known>
        ensures { result ≡ known_in self.now at }
    {
        if let Some(known) = self.outline.known().find(at) {
            return Some(known);
        }
        self.locals.find(at)
    }

    // What a declaration means in a static expression.
    fn meaning_of(&self, found: Option<Declared>) -> Meaning
        ensures { result ≡ point_meaning self.now found }
    {
        if let Some(Declared::Constant(at)) = found {
            return known_meaning(self.known(at));
        }
        meaning(self.outline.known(), found)
    }

    /// The subtype of the constant with a static value that a name denotes, if it denotes one (3.3.1).
    #[tactic(auto, unfolding(crate::specs::Selectors::constant_subtype))]
    pub(crate) fn constant_subtype(&self, name: &Name) -> Option<Range>
        ensures { result ≡ constant_subtype self.now (name_view name.now) }
    {
        let found = self.scope.visible(name);
        self.declared_range(found)
    }

    // The subtype of a constant with a static value.
    fn declared_range(&self, found: Option<Declared>) -> Option<Range>
        ensures { result ≡ declared_range self.now found }
    {
        match found {
            Some(Declared::Constant(at)) => constant_range(self.known(at)),
            Some(Declared::Predefined(Predefined::DefaultPriority)) => Some(integers(1, 30)),
            _ => None,
        }
    }

    /// What a name denotes.
    #[tactic(auto, unfolding(crate::specs::Points::denotes))]
    pub(crate) fn denoted(&self, name: &Name) -> Denoted
        ensures { result ≡ denotes self.now (name_view name.now) }
    {
        let found = self.scope.visible(name);
        denoted_declaration(self, found)
    }

    /// The parameters of the operation that a name denotes.
    #[tactic(auto, unfolding(crate::specs::Points::profile))]
    pub(crate) fn parameters(&self, name: &Name) -> &[Parameter]
        ensures { result.now ≡ profile self.now (name_view name.now) }
    {
        let found = self.scope.visible(name);
        profile_of_declaration(self, found)
    }

    /// Whether the operators of Ada.Real_Time are visible.
    #[tactic(auto, unfolding(crate::specs::Points::shows_times))]
    pub(crate) fn shows_times(&self) -> bool
        ensures { result ≡ shows_times self.now }
    {
        self.times
    }

    pub(crate) fn outline(&self) -> &Outline
        ensures known { result.now.known ≡ self.now.known }
        ensures units { result.now.units ≡ self.now.units }
    {
        self.outline
    }

    pub(crate) fn catalogue(&self) -> &Catalogue
        ensures { result.now ≡ self.now.shapes }
    {
        self.catalogue
    }

    pub(crate) fn slots(&self) -> usize
        ensures { result ≡ self.now.slots }
    {
        self.slots
    }

    pub(crate) fn result_range(&self) -> Option<Range>
        ensures { result ≡ self.now.result }
    {
        self.result_range
    }

    /// Notes what is known of a declaration of the body.
    pub(crate) fn note(&mut self, at: usize, known: Known) -> Result<(), Refused>
        ensures { OnOk result (self.new ≡ noting at known self.old) }
    {
        self.locals.push(Local { at, known })?;
        Ok(())
    }

    /// The parameters have their slots.
    pub(crate) fn begin_block(&mut self)
        ensures { self.new ≡ behind_parameters self.old }
    {
        self.parameters = self.slots;
    }

    // How many slots variables and loop parameters have.
    fn variables(&self) -> usize
        ensures { result ≡ self.now.slots - (self.now.parameters + self.now.constants) }
    {
        self.slots
            .saturating_sub(self.parameters)
            .saturating_sub(self.constants)
    }

    /// How many slots are left for constants, or for variables.
    pub(crate) fn slots_left(&self, is_constant: bool) -> usize {
        if is_constant {
            return MOST_CONSTANTS.saturating_sub(self.constants);
        }
        MOST_VARIABLES.saturating_sub(self.variables())
    }

    // Whether a slot is left for one more variable.
    #[tactic(auto, unfolding(crate::specs::Points::has_slot))]
    fn has_slot(&self) -> bool
        ensures { result ≡ has_slot self.now }
    {
        self.variables() < MOST_VARIABLES
    }

    /// Gives the next slot to a parameter.
    pub(crate) fn take_parameter(
        &mut self,
        at: usize,
        range: Range,
        is_written: bool,
    ) -> Result<(), Refused>
        ensures { OnOk result (self.new ≡ taking_slot at range is_written self.old) }
    {
        let Some(next) = self.slots.checked_add(1) else {
            return Err(Refused(TypeFault::TooLarge(at)));
        };
        self.note(at, Known::Variable(self.slots, range, is_written))?;
        self.slots = next;
        Ok(())
    }

    // Gives the next slot to a variable, if one is left.
    fn take_variable(&mut self, at: usize, range: Range) -> Result<(), Refused>
        ensures left { OnOk result (has_slot self.old ≡ true) }
        ensures point { OnOk result (self.new ≡ taking_slot at range true self.old) }
    {
        if !self.has_slot() {
            return Err(Refused(TypeFault::TooLarge(at)));
        }
        self.take_parameter(at, range, true)
    }

    // Gives the next slot to a constant, if one is left.
    #[tactic(auto, unfolding(crate::specs::Points::has_constant_slot))]
    fn take_constant(&mut self, at: usize, range: Range) -> Result<(), Refused>
        ensures left { OnOk result (has_constant_slot self.old ≡ true) }
        ensures point { OnOk result (self.new ≡ taking_constant at range self.old) }
    {
        if self.constants >= MOST_CONSTANTS {
            return Err(Refused(TypeFault::TooLarge(at)));
        }
        let constants = self.constants + 1;
        self.take_parameter(at, range, false)?;
        self.constants = constants;
        Ok(())
    }

    /// Gives the next slot to an object of a declaration, if one is left: to a variable, which is written, or
    /// a constant.
    pub(crate) fn take_object(
        &mut self,
        at: usize,
        range: Range,
        is_written: bool,
    ) -> Result<(), Refused>
        ensures left { OnOk result (has_object_slot is_written self.old ≡ true) }
        ensures point { OnOk result (self.new ≡ taking_object at range is_written self.old) }
    {
        if is_written {
            return self.take_variable(at, range);
        }
        self.take_constant(at, range)
    }

    /// Identifiers inside their own declaration.
    pub(crate) fn hide(&mut self, names: &Vec<Identifier>) -> Result<(), Refused>
        ensures point { OnOk result (self.new ≡ hidden (identifiers_view names.now.items) self.old) }
        ensures only { OnOk result (OnlyDeclares self.old.scope self.new.scope) }
    {
        hide_all(names, &mut self.scope)?;
        Ok(())
    }

    /// Identifiers behind their declaration in a block.
    pub(crate) fn reveal(
        &mut self,
        is_constant: bool,
        names: &Vec<Identifier>,
    ) -> Result<(), Refused>
        ensures point { OnOk result (self.new ≡ revealed is_constant (identifiers_view names.now.items) self.old) }
        ensures only { OnOk result (OnlyDeclares self.old.scope self.new.scope) }
    {
        let form = if is_constant {
            Form::Constant
        } else {
            Form::Variable
        };
        declare_all(names, form, &mut self.scope)?;
        Ok(())
    }

    /// Begins a loop, in whose bounds its parameter denotes nothing; a slot must be left for it.
    pub(crate) fn begin_bounds(&mut self, parameter: &Identifier) -> Result<(), Refused>
        ensures left { OnOk result (has_slot self.old ≡ true) }
        ensures point { OnOk result (self.new ≡ inside_bounds (identifier_view parameter.now) self.old) }
    {
        if !self.has_slot() {
            return Err(Refused(TypeFault::TooLarge(parameter.at)));
        }
        self.scope.enter()?;
        self.scope.declare(parameter, None)?;
        Ok(())
    }

    /// Begins the statements of a loop.
    pub(crate) fn begin_loop(&mut self, parameter: &Identifier, range: Range) -> Result<(), Refused>
        ensures { OnOk result (self.new ≡ with_loop_parameter (identifier_view parameter.now) range self.old) }
    {
        self.scope
            .declare(parameter, Some(Declared::LoopParameter(parameter.at)))?;
        self.take_parameter(parameter.at, range, false)
    }

    /// Ends a loop.
    pub(crate) fn end_loop(&mut self)
        ensures { (p : PointView) (i : IdentifierView) (range : Range) →
            self.old ≡ with_loop_parameter i range (inside_bounds i p) → self.new ≡ p }
    {
        self.scope.leave();
        self.locals.pop();
        self.slots = self.slots.saturating_sub(1);
    }
}
