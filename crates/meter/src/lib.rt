// The meter: what reads a tag's counters and nothing else. What its answers mean stands in specs/.
#![tactic(auto)]

mod glance;
mod going;
pub mod opening;

use format::Span;
use reader::Reader;

// A meter's place: the reader's, with how many frames were passed, whether one of them was short, whether one was a
// compressed frame under a popularimeter's id, and whether the tag has fewer bytes than its header says.
#[derive(Clone, Copy)]
pub struct Meter {
    pub reader: Reader,
    pub frames: u64,
    pub short: bool,
    pub compressed: bool,
    pub missing: bool,
}

// A whole popularimeter of the top level. Its user lies in the work buffer or in the tag; frame is the number of its
// frame, from 0.
#[derive(Clone, Copy)]
pub struct Metered {
    pub in_work: bool,
    pub user: Span,
    pub rating: u8,
    pub counter: u64,
    pub frame: u64,
}
