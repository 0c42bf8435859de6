// Reading a metered tag: the reader's state and its answers. What they mean stands in specs/.
#![tactic(auto)]

pub mod headers;
pub mod opening;
pub mod stepping;

use format::Version;
use format::refusals::Refusal;

// The fields of a tag header; ext is 0 where there is no extended header.
#[derive(Clone, Copy)]
pub struct Header {
    pub version: Version,
    pub flags: u8,
    pub size: u32,
    pub ext: u32,
}

// Whether a reader goes on, has met the end, or was refused with a number.
#[derive(Clone, Copy)]
pub enum Stop {
    Running,
    Ended,
    Failed(Refusal),
}

// A reader's place: the frames lie from `begin` up to `end` in the tag, or resynchronised in the work buffer.
#[derive(Clone, Copy)]
pub struct Reader {
    pub version: Version,
    pub in_work: bool,
    pub begin: usize,
    pub at: usize,
    pub end: usize,
    pub stop: Stop,
}
