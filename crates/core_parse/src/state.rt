use crate::goal::Goal;
use core_build::Value;
use hy_core::Tables;
use stack::Stack;

/// What is still to be read, the next on top, and what was read.
#[derive(Drop)]
pub struct State {
    pub goals: Stack<Goal>,
    pub values: Stack<Value>,
    pub tables: Tables,
}
