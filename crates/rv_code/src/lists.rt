//! Lists of bodies, which objects of one type share.

ghost use Rattle.std.specs.Prelude.{◌≡◌, ◌<◌, [], IfOk, length, map, slice_get, slice_set};
ghost use Rattle.std.specs.Option.{option_map};
ghost use Rattle.rv_code.specs.Bodies.{bodiless};
ghost use Rattle.rv_code.specs.BodyView.{body_view, list_at, unit_view};

use crate::body::{Body, ObjectBodies, UnitBodies};
use std::alloc::{AllocError, Global};

impl UnitBodies {
    /// Those of no object and no task.
    pub fn none(alloc: Global) -> UnitBodies
        ensures { unit_view result ≡ bodiless 0 0 }
    {
        UnitBodies {
            lists: Vec::new(alloc),
            objects: Vec::new(alloc),
            tasks: Vec::new(alloc),
        }
    }

    /// The bodies of the list of an index.
    pub fn list(&self, list: usize) -> &[Body]
        ensures { map body_view result.now ≡ list_at self.now.lists.items list }
    {
        match self.lists.get(list) {
            Some(object) => object.operations.as_slice(),
            None => &[],
        }
    }

    /// The bodies of an object's operations, by the object's index from 0, or `None` where there is no such object.
    pub fn operations(&self, object: usize) -> Option<&[Body]>
        ensures { option_map (λ bodies. map body_view bodies.now) result ≡ slice_get (unit_view self.now).objects object }
    {
        match self.objects.get(object) {
            Some(list) => Some(self.list(*list)),
            None => None,
        }
    }

    #[tactic(auto, using(crate::proofs::Listed::within_more, crate::proofs::Listed::views_stay, crate::proofs::Listed::list_added))]
    /// Adds a list, which no object has yet, and tells its index. Err where memory was refused.
    pub fn add_list(&mut self, operations: Vec<Body>) -> Result<usize, AllocError>
        ensures view { IfOk result (λ _. unit_view self.new ≡ unit_view self.old) }
        ensures list { IfOk result (λ list. list_at self.new.lists.items list ≡ map body_view operations.items) }
        ensures within { IfOk result (λ list. list < length self.new.lists.items) }
        ensures count { IfOk result (λ _. length self.new.objects.items ≡ length self.old.objects.items) }
    {
        let list = self.lists.len();
        self.lists.reserve(1)?;
        self.lists.push_reserved(ObjectBodies { operations });
        Ok(list)
    }

    #[tactic(auto, using(crate::proofs::Listed::within_given, crate::proofs::Listed::views_given))]
    /// Gives an object a list in place of the one that it had.
    pub fn give(&mut self, object: usize, list: usize)
        requires object { object < length self.old.objects.items }
        requires list { list < length self.old.lists.items }
        ensures view { unit_view self.new ≡ record (unit_view self.old) {
          objects = slice_set (unit_view self.old).objects object (list_at self.old.lists.items list);
        } }
        ensures lists { self.new.lists ≡ self.old.lists }
        ensures count { length self.new.objects.items ≡ length self.old.objects.items }
    {
        self.objects[object] = list;
    }
}
