//! Which declaration a name denotes.

ghost use Rattle.std.specs.Prelude.{◌≡◌, true, None, map};
ghost use Rattle.rv_tree.specs.NameView.{name_view, identifier_view};
ghost use Rattle.rv_scope.specs.Predefined.{named};
ghost use Rattle.rv_scope.specs.Visible.{in_region, with_named, library_item, used_item, own_unit, root_library, with_named_unit, without_use, from_outside, direct, direct_in_context, unit_object, unit_operation, outer_operation, is_current, is_around, in_own_body, selected, selected_all, visible, visible_in_context, library_named, library_unit, innermost_meaning, flat};
ghost use Rattle.rv_scope.specs.Wanted.{denoted, is_body};
ghost use Rattle.rv_scope.specs.ExpressionUses.{simple as simple_name};

use crate::declared::Declared;
use crate::find::{
    declared_in, found_in, library_named, object_at, object_index, of_object, shown_operation,
    unit_index, unit_named,
};
use crate::predefined::{Library, is_among};
use crate::scope::Scope;
use crate::wanted::Wanted;
use rv_text::is_same_name;
use rv_tree::name::{Identifier, Name};

impl<'a> Scope<'a> {
    // What a name denotes in the innermost region that declares it.
    pub fn innermost_meaning(&self, name: &str) -> Option<Option<Declared>>
        ensures { result ≡ innermost_meaning self.now name.now }
    {
        if let Some(meaning) = self.innermost().find(name) {
            return Some(meaning);
        }
        found_in(name, self.around())
    }

    // What a name denotes in the region of a number, the package's being 0.
    fn in_region(&self, number: usize, name: &str) -> Option<Declared>
        ensures { result ≡ in_region number self.now name.now }
    {
        if let Some(region) = self.around().get(number) {
            return declared_in(region, name);
        }
        if number == self.around().len() {
            declared_in(self.innermost(), name)
        } else {
            None
        }
    }

    // A library package, if a `with` names it; Standard needs none.
    fn with_named(&self, library: Library) -> Option<Declared>
        ensures { result ≡ with_named self.now library }
    {
        match library {
            Library::Standard => Some(Declared::LibraryPackage(library)),
            _ => {
                if is_among(library, self.libraries()) {
                    Some(Declared::LibraryPackage(library))
                } else {
                    None
                }
            }
        }
    }

    // What a package declares, with the child packages that a `with` names.
    fn library_item(&self, library: Library, name: &str) -> Option<Declared>
        ensures { result ≡ library_item self.now library name.now }
    {
        if let Some(item) = library.declaration(name) {
            return Some(Declared::Predefined(item));
        }
        let child = library.child(name)?;
        self.with_named(child)
    }

    // What the packages that a `use` names declare (8.4).
    fn used_item(&self, name: &str) -> Option<Declared>
        ensures { result ≡ used_item self.now name.now self.now.used }
    {
        for library in self.used() {
            if let Some(item) = self.library_item(*library, name) {
                return Some(item);
            }
        }
        None
    }

    // The text's unit, if it has this name.
    fn own_unit(&self, name: &str) -> Option<Option<Declared>>
        ensures { result ≡ own_unit self.now name.now }
    {
        if is_same_name(name, self.unit()) {
            Some(Some(Declared::OwnUnit))
        } else {
            None
        }
    }

    // A loaded unit of this name that a `with` names.
    fn with_named_unit(&self, name: &str) -> Option<Declared>
        ensures { result ≡ with_named_unit self.now name.now }
    {
        let index = unit_index(self.shapes(), name)?;
        if self.has_unit(index) {
            Some(Declared::Unit(index))
        } else {
            None
        }
    }

    // A library package that stands in no other, if a `with` names it.
    fn root_library(&self, name: &str) -> Option<Declared>
        ensures { result ≡ root_library self.now name.now }
    {
        let library = Library::root(name)?;
        self.with_named(library)
    }

    // What a simple name denotes that is visible without a `use`.
    fn without_use(&self, name: &str) -> Option<Declared>
        ensures { result ≡ without_use self.now name.now }
    {
        if let Some(item) = Library::Standard.declaration(name) {
            return Some(Declared::Predefined(item));
        }
        if let Some(unit) = self.with_named_unit(name) {
            return Some(unit);
        }
        self.root_library(name)
    }

    // What a simple name denotes that no declaration of the text hides.
    fn from_outside(&self, name: &str) -> Option<Declared>
        ensures { result ≡ from_outside self.now name.now }
    {
        match self.without_use(name) {
            Some(found) => Some(found),
            None => self.used_item(name),
        }
    }

    // What a simple name denotes.
    pub fn direct(&self, name: &str) -> Option<Declared>
        ensures { result ≡ direct self.now name.now }
    {
        if let Some(meaning) = self.innermost_meaning(name) {
            return meaning;
        }
        if let Some(meaning) = self.own_unit(name) {
            return meaning;
        }
        self.from_outside(name)
    }

    // What a simple name of a context clause denotes, where no `use` has effect yet.
    fn direct_in_context(&self, name: &str) -> Option<Declared>
        ensures { result ≡ direct_in_context self.now name.now }
    {
        if let Some(meaning) = self.own_unit(name) {
            return meaning;
        }
        self.without_use(name)
    }

    /// What a simple name denotes where this is wanted: no `use` has effect in a `use`.
    pub fn first_denoted(&self, wanted: Wanted, name: &str) -> Option<Declared> {
        match wanted {
            Wanted::Use => self.direct_in_context(name),
            _ => self.direct(name),
        }
    }

    // An object of a loaded unit, but none that only the unit's body declares (7.2).
    fn unit_object(&self, unit: usize, name: &str) -> Option<Declared>
        ensures { result ≡ unit_object self.now unit name.now }
    {
        let shape = self.shapes().get(unit)?;
        let index = object_index(shape.objects(), name)?;
        let object = shape.objects().get(index)?;
        if !object.is_visible() {
            return None;
        }
        Some(object_at(unit, index, object))
    }

    // An operation before `private` of an object of a loaded unit.
    fn unit_operation(&self, unit: usize, object: usize, name: &str) -> Option<Declared>
        ensures { result ≡ unit_operation self.now unit object name.now }
    {
        let shape = self.shapes().get(unit)?;
        let found = shape.objects().get(object)?;
        shown_operation(unit, object, found.operations(), name)
    }

    // An operation before `private` of an object of the text.
    fn outer_operation(&self, object: usize, number: usize, name: &str) -> Option<Declared>
        ensures { result ≡ outer_operation self.now object number name.now }
    {
        let operations = self.shown().get(number)?;
        let operation = declared_in(operations, name)?;
        of_object(object, operation)
    }

    // Whether the point is in the declaration or the body of the protected unit whose identifier has this place.
    pub fn is_current(&self, at: usize) -> bool
        ensures { result ≡ is_current self.now at }
    {
        match self.current() {
            Some(current) => current == at,
            None => false,
        }
    }

    // Whether the point is in the body of the operation or the task whose identifier has this place.
    pub fn is_around(&self, at: usize) -> bool
        ensures { result ≡ is_around self.now at }
    {
        match self.body() {
            Some(body) => body == at,
            None => false,
        }
    }

    // What a name behind that of an operation or a task of this place denotes: what its body declares in the region of a
    // number, where the point is in that body.
    fn in_own_body(&self, at: usize, number: usize, name: &str) -> Option<Declared>
        ensures { result ≡ in_own_body self.now at number name.now }
    {
        if self.is_around(at) {
            self.in_region(number, name)
        } else {
            None
        }
    }

    // What a name behind a point denotes.
    pub fn selected(&self, prefix: Declared, name: &str) -> Option<Declared>
        ensures { result ≡ selected self.now prefix name.now }
    {
        match prefix {
            Declared::OwnUnit => self.in_region(0, name),
            Declared::Unit(unit) => self.unit_object(unit, name),
            Declared::UnitObject(unit, object) => self.unit_operation(unit, object, name),
            Declared::LibraryPackage(library) => self.library_item(library, name),
            Declared::ProtectedType(at, _) => {
                if self.is_current(at) {
                    self.in_region(1, name)
                } else {
                    None
                }
            }
            Declared::SingleProtected(at, number) => {
                if self.is_current(at) {
                    self.in_region(1, name)
                } else {
                    self.outer_operation(at, number, name)
                }
            }
            Declared::ProtectedObject(at, number) => self.outer_operation(at, number, name),
            Declared::Operation(at, _) => self.in_own_body(at, 2, name),
            Declared::Task(at) => self.in_own_body(at, 1, name),
            _ => None,
        }
    }

    // The same, of all that stands behind points.
    fn selected_all(&self, first: Option<Declared>, more: &Vec<Identifier>) -> Option<Declared>
        ensures { result ≡ selected_all self.now first (map identifier_view more.now.items) }
    {
        let mut found = first;
        for identifier in more {
            found = match found {
                Some(prefix) => self.selected(prefix, identifier.text.as_str()),
                None => None,
            };
        }
        found
    }

    /// The declaration that a name denotes, or `None` where none is visible.
    pub fn visible(&self, name: &Name) -> Option<Declared>
        ensures { result ≡ visible self.now (name_view name.now) }
    {
        let first = self.direct(name.first.text.as_str());
        self.selected_all(first, &name.more)
    }

    // The same in a context clause.
    fn visible_in_context(&self, name: &Name) -> Option<Declared>
        ensures { result ≡ visible_in_context self.now (name_view name.now) }
    {
        let first = self.direct_in_context(name.first.text.as_str());
        self.selected_all(first, &name.more)
    }

    /// The library unit of a name, whether a `with` names it or not.
    pub fn library_unit(&self, name: &Name) -> Option<Declared>
        ensures { result ≡ library_unit self.now (name_view name.now) }
    {
        if let Some(library) = library_named(name) {
            return Some(Declared::LibraryPackage(library));
        }
        let index = unit_named(self.shapes(), name)?;
        Some(Declared::Unit(index))
    }

    // What the innermost region declares by a name.
    pub fn in_innermost(&self, name: &str) -> Option<Declared>
        ensures { result ≡ flat (named name.now self.now.innermost) }
    {
        declared_in(self.innermost(), name)
    }

    /// What the name of a body denotes.
    pub fn denoted_by_body(&self, wanted: Wanted, declared: &Identifier) -> Option<Declared>
        requires { is_body wanted ≡ true }
        ensures { result ≡ denoted wanted self.now (simple_name (identifier_view declared.now)) }
    {
        let text = declared.text.as_str();
        match wanted {
            Wanted::PackageBody => match self.own_unit(text) {
                Some(meaning) => meaning,
                None => None,
            },
            _ => self.in_innermost(text),
        }
    }

    /// What a name denotes where this is wanted: a `with` names library units, a `use` what is visible in a context
    /// clause, a body what the innermost region declares, and all else what is visible.
    pub fn denoted(&self, wanted: Wanted, name: &Name) -> Option<Declared>
        ensures { result ≡ denoted wanted self.now (name_view name.now) }
    {
        match wanted {
            Wanted::With => self.library_unit(name),
            Wanted::Use => self.visible_in_context(name),
            Wanted::PackageBody
            | Wanted::ProtectedBody
            | Wanted::TaskBody
            | Wanted::FunctionBody
            | Wanted::ProcedureBody
            | Wanted::EntryBody => self.denoted_by_body(wanted, &name.first),
            Wanted::Nothing => None,
            _ => self.visible(name),
        }
    }
}
