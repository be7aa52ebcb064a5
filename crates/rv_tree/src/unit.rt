//! Whole unit texts (ISO/IEC 8652:2012, 7.1, 7.2, 10.1).

use crate::body::{ProtectedBody, TaskBody};
use crate::declaration::{Declaration, Pragma};
use crate::name::{Identifier, Name};

/// What may stand before a package: context clauses (10.1.2, 8.4) and pragmas.
#[derive(Drop)]
pub enum ContextItem {
    Pragma(Pragma),
    With(usize, Vec<Name>),
    Use {
        at: usize,
        is_type: bool,
        names: Vec<Name>,
    },
}

/// A package specification (7.1).
#[derive(Drop)]
pub struct PackageSpecification {
    pub at: usize,
    pub name: Identifier,
    pub declarations: Vec<Declaration>,
    pub end_name: Option<Identifier>,
}

/// An item of a package body (7.2).
#[derive(Drop)]
pub enum BodyItem {
    Declaration(Declaration),
    Protected(ProtectedBody),
    Task(TaskBody),
}

/// A package body (7.2).
#[derive(Drop)]
pub struct PackageBody {
    pub at: usize,
    pub name: Identifier,
    pub items: Vec<BodyItem>,
    pub end_name: Option<Identifier>,
}

/// A unit text: a package and its body.
#[derive(Drop)]
pub struct UnitTree {
    pub context: Vec<ContextItem>,
    pub specification: PackageSpecification,
    pub body: PackageBody,
}
