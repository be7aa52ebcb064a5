//! What a walk through the declarations of a text has found so far.

ghost use Rattle.std.specs.Prelude.{◌≡◌, ◌≤◌, ◌++◌, ◌∷◌, [], OnOk, length, map, string_bytes, false};
ghost use Rattle.rv_tree.specs.NameView.{identifier_view, identifiers_view};
ghost use Rattle.rv_outline.specs.Drafts.{UnitDraft as UnitView, empty_draft, empty_unit, knowing as known_of, adding_component, adding_components, adding_operation, adding_object, adding_objects, giving_priority, started, finished, finished_task, having_kind};

use crate::outline::ObjectType;
use rv_scope::{ByPlace, Known, Table};
use rv_shape::kind::{Component, Kind};
use rv_shape::object::Operation;
use rv_shape::task::Task;
use rv_static::Faults;
use rv_tree::Identifier;
use std::alloc::{AllocError, Global};
use std::marker::Model;

/// The kinds of operations that aspects, pragmas and bodies give them, by the places of their identifiers: of handlers
/// (C.3.1), and of entries with their barriers (9.5.2).
pub(crate) type Kinds = ByPlace<Kind>;

/// An operation of a protected unit, with the place of its identifier.
pub(crate) struct OperationDraft {
    pub(crate) at: usize,
    pub(crate) operation: Operation,
}

impl Drop for OperationDraft {
    // A function of its own: a derived one is written out wherever a value is let go, and proved there.
    fn drop(self) {
        let OperationDraft {
            at: _,
            operation: _,
        } = self;
    }
}

/// A protected unit or a task, as far as it is declared.
pub(crate) struct UnitDraft {
    pub(crate) name: String,
    // Whether other units see it.
    pub(crate) is_visible: bool,
    // The priority that an aspect or a pragma gives it.
    pub(crate) priority: Option<usize>,
    pub(crate) components: Vec<Component>,
    pub(crate) operations: Vec<OperationDraft>,
}

impl Drop for UnitDraft {
    // A function of its own: a derived one is written out wherever a value is let go, and proved there.
    fn drop(self) {
        let UnitDraft {
            name: _,
            is_visible: _,
            priority: _,
            components: _,
            operations: _,
        } = self;
    }
}

impl Model for UnitDraft {
    ghost use Rattle.rv_outline.specs.Drafts.{UnitDraft as UnitView};
    ghost use Rattle.std.specs.Prelude.{string_bytes};

    ghost Value = { UnitView };

    ghost view = { λ u. record {
      name = string_bytes u.name;
      is_visible = u.is_visible;
      priority = u.priority;
      components = u.components.items;
      operations = u.operations.items;
    } };
}

/// An object of the package.
pub(crate) struct ObjectDraft {
    pub(crate) name: String,
    pub(crate) is_visible: bool,
    pub(crate) of: ObjectType,
}

impl Drop for ObjectDraft {
    // A function of its own: a derived one is written out wherever a value is let go, and proved there.
    fn drop(self) {
        let ObjectDraft {
            name: _,
            is_visible: _,
            of: _,
        } = self;
    }
}

impl Model for ObjectDraft {
    ghost use Rattle.rv_outline.specs.Drafts.{ObjectDraft as ObjectView};
    ghost use Rattle.std.specs.Prelude.{string_bytes};

    ghost Value = { ObjectView };

    ghost view = { λ o. record { name = string_bytes o.name; is_visible = o.is_visible; of = o.of } };
}

/// What a walk through the declarations of a text has found so far.
pub(crate) struct Draft {
    pub(crate) alloc: Global,
    pub(crate) faults: Faults,
    pub(crate) known: Table,
    pub(crate) kinds: Kinds,
    // The protected unit or the task that is being declared.
    pub(crate) current: UnitDraft,
    // The protected units in the order of their numbers.
    pub(crate) units: Vec<UnitDraft>,
    // The number of the first object.
    pub(crate) first: usize,
    pub(crate) objects: Vec<ObjectDraft>,
    pub(crate) tasks: Vec<Task>,
}

impl Drop for Draft {
    // A function of its own: a derived one is written out wherever a value is let go, and proved there.
    fn drop(self) {
        let Draft {
            alloc: _,
            faults: _,
            known: _,
            kinds: _,
            current: _,
            units: _,
            first: _,
            objects: _,
            tasks: _,
        } = self;
    }
}

impl Model for Draft {
    ghost use Rattle.rv_outline.specs.Drafts.{Draft as DraftView};
    ghost use Rattle.std.specs.Prelude.{◌≤◌};

    ghost Value = { DraftView };

    ghost view = { λ d. record {
      told = d.faults;
      known = d.known;
      kinds = d.kinds;
      current = d.current;
      units = d.units.items;
      first = d.first;
      objects = d.objects.items;
      tasks = d.tasks.items;
    } };

    ghost invariant = { λ d. d.first ≤ 257 };
}

impl UnitDraft {
    fn new(alloc: Global, name: String, is_visible: bool) -> UnitDraft
        ensures { result ≡ empty_unit (string_bytes name) is_visible }
    {
        UnitDraft {
            name,
            is_visible,
            priority: None,
            components: Vec::new(alloc),
            operations: Vec::new(alloc),
        }
    }

    fn into_name(self) -> String
        ensures { string_bytes result ≡ self.name }
    {
        let UnitDraft {
            name,
            is_visible: _,
            priority: _,
            components: _,
            operations: _,
        } = self;
        name
    }
}

impl Draft {
    /// Before the declarations of a text, behind so many objects of loaded units.
    pub(crate) fn new(alloc: Global, objects: usize) -> Draft
        requires { objects ≤ 256 }
        ensures { result ≡ empty_draft objects }
    {
        Draft {
            alloc,
            faults: Faults::new(),
            known: Table::new(alloc),
            kinds: Kinds::new(alloc),
            current: UnitDraft::new(alloc, String::new(alloc), false),
            units: Vec::new(alloc),
            first: objects + 1,
            objects: Vec::new(alloc),
            tasks: Vec::new(alloc),
        }
    }

    /// What is known, and the tasks.
    pub(crate) fn into_parts(self) -> (Table, Vec<Task>)
        ensures known { result.0 ≡ self.known }
        ensures tasks { result.1.items ≡ self.tasks }
    {
        let Draft {
            alloc: _,
            faults: _,
            known,
            kinds: _,
            current: _,
            units: _,
            first: _,
            objects: _,
            tasks,
        } = self;
        (known, tasks)
    }

    // Something is known of the declaration of an identifier.
    fn know(&mut self, declared: &Identifier, known: Known) -> Result<(), AllocError>
        ensures { OnOk result (self.new ≡ known_of (identifier_view declared.now) known self.old) }
    {
        self.known.note(declared.at, known)
    }

    /// The declaration of a protected unit or a task begins.
    pub(crate) fn start(
        &mut self,
        declared: &Identifier,
        is_visible: bool,
    ) -> Result<(), AllocError>
        ensures { OnOk result (self.new ≡ started (identifier_view declared.now) is_visible self.old) }
    {
        let name = String::from_str(self.alloc, declared.text.as_str())?;
        self.current = UnitDraft::new(self.alloc, name, is_visible);
        Ok(())
    }

    /// A priority is given to it.
    pub(crate) fn give_priority(&mut self, priority: usize)
        ensures { self.new ≡ giving_priority priority self.old }
    {
        self.current.priority = Some(priority);
    }

    // It has one more component.
    fn add_component(
        &mut self,
        component: Component,
        declared: &Identifier,
    ) -> Result<(), AllocError>
        ensures { OnOk result (self.new ≡ adding_component component (identifier_view declared.now) self.old) }
    {
        let index = self.current.components.len();
        self.know(declared, Known::Component(index, component.range))?;
        self.current.components.push(component)?;
        Ok(())
    }

    /// It has these components.
    pub(crate) fn add_components(
        &mut self,
        component: Component,
        names: &Vec<Identifier>,
    ) -> Result<(), AllocError>
        ensures { OnOk result (self.new ≡ adding_components (identifiers_view names.now.items) component self.old) }
    {
        for declared in names {
            self.add_component(component, declared)?;
        }
        Ok(())
    }

    /// It has one more operation.
    pub(crate) fn add_operation(
        &mut self,
        declared: &Identifier,
        operation: Operation,
    ) -> Result<(), AllocError>
        ensures { OnOk result (self.new ≡ adding_operation (identifier_view declared.now) operation self.old) }
    {
        let index = self.current.operations.len();
        let unit = self.units.len();
        self.know(declared, Known::Operation(unit, index))?;
        self.current.operations.push(OperationDraft {
            at: declared.at,
            operation,
        })?;
        Ok(())
    }

    /// A kind is given to the operation of this place.
    pub(crate) fn give_kind(&mut self, at: usize, kind: Kind) -> Result<(), AllocError>
        ensures { OnOk result (self.new ≡ having_kind at kind self.old) }
    {
        self.kinds.note(at, kind)
    }

    // What was being declared, behind its declaration.
    fn take_current(&mut self) -> UnitDraft
        ensures current { result ≡ self.old.current }
        ensures rest { self.new ≡ record self.old { current = empty_unit [] false } }
    {
        let empty = UnitDraft::new(self.alloc, String::new(self.alloc), false);
        std::mem::replace(&mut self.current, empty)
    }

    /// The protected unit is declared.
    pub(crate) fn finish_unit(&mut self) -> Result<(), AllocError>
        ensures { OnOk result (self.new ≡ finished self.old) }
    {
        let unit = self.take_current();
        self.units.push(unit)?;
        Ok(())
    }

    /// The task is declared.
    pub(crate) fn finish_task(&mut self) -> Result<(), AllocError>
        ensures { OnOk result (self.new ≡ finished_task self.old) }
    {
        let unit = self.take_current();
        let priority = match unit.priority {
            Some(priority) => priority,
            None => 15,
        };
        self.tasks.push(Task::new(unit.into_name(), priority))?;
        Ok(())
    }

    /// There is one more object.
    pub(crate) fn add_object(
        &mut self,
        is_visible: bool,
        of: ObjectType,
        declared: &Identifier,
    ) -> Result<(), AllocError>
        ensures { OnOk result (self.new ≡ adding_object is_visible of (identifier_view declared.now) self.old) }
    {
        let number = self.first + self.objects.len();
        self.know(declared, Known::Object(number))?;
        let name = String::from_str(self.alloc, declared.text.as_str())?;
        self.objects.push(ObjectDraft {
            name,
            is_visible,
            of,
        })?;
        Ok(())
    }

    /// There are these objects.
    pub(crate) fn add_objects(
        &mut self,
        is_visible: bool,
        of: ObjectType,
        names: &Vec<Identifier>,
    ) -> Result<(), AllocError>
        ensures { OnOk result (self.new ≡ adding_objects is_visible of (identifiers_view names.now.items) self.old) }
    {
        for declared in names {
            self.add_object(is_visible, of, declared)?;
        }
        Ok(())
    }
}
