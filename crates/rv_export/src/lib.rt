//! A journal as lines of JSON, one for each entry (docs/JOURNAL_JSON.md): what is in it, and beside it what follows from the entries before.
//!
//! Whoever audits the journal lends an observer each entry with the audit's own host. The lines are kept until the whole journal is found
//! legal. No text has to be escaped: names are identifiers, and the lines of a list have letters, digits, `_`, `.`, `*` and spaces alone.
#![tactic(auto)]

mod drops;
pub mod export;
mod facts;
mod fields;
mod kept;
mod left;
mod said;
mod words;
