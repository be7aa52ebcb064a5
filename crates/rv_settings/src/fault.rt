//! What can be wrong with settings.

use thiserror::Error;

/// What is wrong with settings.
#[derive(Clone, Copy, Debug, Drop, PartialEq, Eq, Error)]
pub enum SettingsFault {
    /// They are no TOML.
    #[error("NotToml")]
    NotToml,
    /// A key that settings don't have.
    #[error("UnknownKey")]
    UnknownKey,
    /// A value of another type or outside its limits, or a device that lacks a key.
    #[error("BadValue")]
    BadValue,
    /// Memory was refused, which says nothing of the settings.
    #[error("NoMemory")]
    NoMemory,
}
