//! What is declared at each point of a unit text, and what a name denotes there (ISO/IEC 8652:2012, 8.2, 8.3, 8.6).
//!
//! Who walks through a text keeps a [`Scope`] on the way, and asks [`Scope::denoted`] or [`Scope::visible`]. `rv_names`
//! does so first, and makes [`named::Named`]: the tree and the loaded units, over which each name is bound. No second tree
//! is made: who comes after walks through the same tree.
//!
//! [`Declared`] tells a declaration of the text by the place of its identifier, which no other has. So what is known of a
//! declaration is kept by its place in a [`Table`], in the order in which the walk meets it, and a [`Point`] gives static
//! expressions what names mean by it. Protected units have numbers in the order of
//! the text, from 0, as [`named::protected_units`] lists them. [`Declared::sort`] tells what sort of thing it is, and
//! [`Wanted::suits`] what may stand where.
#![tactic(auto)]

pub mod by_place;
pub mod context;
pub mod declaration;
pub mod declare;
pub mod declared;
pub mod find;
pub mod head;
pub mod known;
pub mod library_meaning;
pub mod members;
pub mod named;
pub mod point;
pub mod pragma;
pub mod predefined;
pub mod protected;
pub mod protected_body;
pub mod region;
pub mod scope;
pub mod subtype;
pub mod units;
pub mod visible;
pub mod wanted;

pub use by_place::ByPlace;
pub use declared::{Declared, OperationKind};
pub use head::{Head, declared_head};
pub use known::{Known, Table};
pub use point::Point;
pub use predefined::{Library, Predefined};
pub use scope::Scope;
pub use wanted::{Sort, Wanted};
