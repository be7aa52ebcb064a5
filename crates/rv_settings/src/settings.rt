//! The settings of a host.

use crate::device::Device;
use std::alloc::Global;
use std::marker::Model;

/// How many entries a journal may have where nothing else is set.
pub const DEFAULT_CAPACITY: usize = 4096;

/// How many requests a task's own body may make where nothing else is set.
pub const DEFAULT_BUDGET: u32 = 1000;

/// How many callers may wait in an entry's queue where nothing else is set: as under the profile (D.7, D.13).
pub const DEFAULT_QUEUE_LIMIT: usize = 1;

/// The settings of a host.
#[derive(Drop)]
pub struct Settings {
    pub(crate) capacity: usize,
    pub(crate) budget: u32,
    pub(crate) queue_limit: usize,
    pub(crate) devices: Vec<Device>,
}

impl Model for Settings {
    ghost use Rattle.std.specs.Prelude.{map};
    ghost use Rattle.rv_settings.specs.Settings.{SettingsText};

    ghost Value = { SettingsText };

    ghost view = { λ s. record {
      capacity = s.capacity;
      budget = s.budget;
      queue_limit = s.queue_limit;
      devices = s.devices.items;
    } };
}

impl Settings {
    ghost use Rattle.std.specs.Prelude.{◌≡◌, map};
    ghost use Rattle.rv_settings.specs.Settings.{default_settings};

    /// The settings of a host for which nothing is set.
    pub fn defaults(alloc: Global) -> Settings
        ensures { result ≡ default_settings }
    {
        Settings {
            capacity: DEFAULT_CAPACITY,
            budget: DEFAULT_BUDGET,
            queue_limit: DEFAULT_QUEUE_LIMIT,
            devices: Vec::new(alloc),
        }
    }

    /// How many entries its journal may have, 16 .. 1,048,576.
    pub fn capacity(&self) -> usize
        ensures { result ≡ self.now.capacity }
    {
        self.capacity
    }

    /// How many requests a task's own body may make, 1 .. 1,000,000.
    pub fn budget(&self) -> u32
        ensures { result ≡ self.now.budget }
    {
        self.budget
    }

    /// How many callers may wait in an entry's queue, 1 .. 8; above 1 the host leaves the profile.
    pub fn queue_limit(&self) -> usize
        ensures { result ≡ self.now.queue_limit }
    {
        self.queue_limit
    }

    /// Its devices, in order.
    pub fn devices(&self) -> &[Device]
        ensures { result.now ≡ self.now.devices }
    {
        self.devices.as_slice()
    }
}
