// Writing a metered tag: the writer's state and its answers. What they mean stands in specs/.
#![tactic(auto)]

mod add;
pub mod begin;
pub mod between;
mod bodies;
mod counter;
mod finish;
mod frames;
mod numbers;
mod pack;
mod pens;
mod small;

use format::{Mode, Version};

// A writer, with the bytes of its collecting buffer that its frames use.
#[derive(Clone, Copy)]
pub struct Writer {
    pub version: Version,
    pub mode: Mode,
    pub altered: bool,
    pub used: usize,
}
