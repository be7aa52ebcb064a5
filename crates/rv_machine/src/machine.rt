//! A machine that runs bodies on a stack of its own.

use crate::point::Point;
use crate::stack::Stack;
use rv_exec::activation::Activation;
use rv_exec::setting::Setting;

/// Where a run is, the activation of the body that runs and what it runs in, and what waits.
#[derive(Drop)]
pub struct Machine {
    pub point: Point,
    pub activation: Activation,
    pub setting: Setting,
    pub stack: Stack,
}
