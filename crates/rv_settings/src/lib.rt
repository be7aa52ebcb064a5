//! The settings of a host: how much it keeps, how many may wait in a queue, and the devices that call it.
#![tactic(auto)]

mod device;
mod fault;
mod faults;
mod reading;
mod settings;

pub use device::Device;
pub use fault::SettingsFault;
pub use reading::read_settings;
pub use settings::{DEFAULT_BUDGET, DEFAULT_CAPACITY, DEFAULT_QUEUE_LIMIT, Settings};
