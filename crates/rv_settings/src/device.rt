//! Devices: each is a unit of one task, whose job calls one operation.

use std::marker::Model;

/// A device: a unit with one task, whose job calls an operation a number of times and finishes.
#[derive(Drop)]
pub struct Device {
    pub(crate) unit: String,
    pub(crate) task: String,
    pub(crate) priority: u8,
    pub(crate) object: String,
    pub(crate) operation: String,
    pub(crate) calls: u32,
}

impl Model for Device {
    ghost use Rattle.std.specs.Prelude.{string_bytes};
    ghost use Rattle.rv_settings.specs.Settings.{DeviceText};

    ghost Value = { DeviceText };

    ghost view = { λ d. record {
      unit = string_bytes d.unit;
      task = string_bytes d.task;
      priority = d.priority;
      object = string_bytes d.object;
      operation = string_bytes d.operation;
      calls = d.calls;
    } };
}

impl Device {
    ghost use Rattle.std.specs.Prelude.{◌≡◌};

    /// The name of its unit, an identifier.
    pub fn unit(&self) -> &str
        ensures { result.now ≡ self.now.unit }
    {
        self.unit.as_str()
    }

    /// The name of its task, an identifier.
    pub fn task(&self) -> &str
        ensures { result.now ≡ self.now.task }
    {
        self.task.as_str()
    }

    /// The base priority of its task, 1 .. 40.
    pub fn priority(&self) -> u8
        ensures { result ≡ self.now.priority }
    {
        self.priority
    }

    /// The object that it calls, `Unit.Object`.
    pub fn object(&self) -> &str
        ensures { result.now ≡ self.now.object }
    {
        self.object.as_str()
    }

    /// The operation that it calls, an identifier.
    pub fn operation(&self) -> &str
        ensures { result.now ≡ self.now.operation }
    {
        self.operation.as_str()
    }

    /// How often it calls, 1 .. 1,000,000.
    pub fn calls(&self) -> u32
        ensures { result ≡ self.now.calls }
    {
        self.calls
    }
}
