// The metered tag: the types of frames and records. What they mean stands in specs/.
#![tactic(auto)]

pub mod classes;
pub mod numbered;
pub mod refusals;
pub mod small;

// The editions of ID3v2.
#[derive(Clone, Copy, PartialEq, Eq)]
pub enum Version {
    Id3v22,
    Id3v23,
    Id3v24,
}

// What is done against false synchronisation: nothing, as the crate id3 does, or as the 2.4.0 text says.
#[derive(Clone, Copy, PartialEq, Eq)]
pub enum Mode {
    Off,
    Crate,
    Standard,
}

// What a frame's id says of its body.
#[derive(Clone, Copy, PartialEq, Eq)]
pub enum Kind {
    Text,
    Popularimeter,
    Table,
    Chapter,
    Contents,
    Raw,
}

// A part of a buffer.
#[derive(Clone, Copy, PartialEq, Eq)]
pub struct Span {
    pub start: usize,
    pub len: usize,
}

// A record's kind with its numbers.
#[derive(Clone, Copy, PartialEq, Eq)]
pub enum Fields {
    Text {
        encoding: u8,
    },
    Popularimeter {
        rating: u8,
        counter: u64,
    },
    Table {
        frames: u16,
        bytes: u32,
        millis: u32,
        bits_for_bytes: u8,
        bits_for_millis: u8,
    },
    Chapter {
        start_time: u32,
        end_time: u32,
        start_offset: u32,
        end_offset: u32,
    },
    Contents {
        top_level: bool,
        ordered: bool,
    },
    Raw,
}

// What a record is apart from its bytes. The id is its bytes as one number, highest first.
#[derive(Clone, Copy, PartialEq, Eq)]
pub struct Heading {
    pub id: u32,
    pub short: bool,
    pub compressed: bool,
    pub fields: Fields,
}

// The bytes and numbers that are given with the heading of a record that is to be written. What its kind lacks is not looked at.
#[derive(Clone, Copy)]
pub struct Given<'a> {
    pub name: &'a [u8],
    pub names: &'a [u8],
    pub rest: &'a [u8],
    pub deviations: &'a [u32],
}

// The fields of a body and the places of its parts: name is the user or the element id, names the children,
// rest the text, the packed references, the run of subframes or the raw body. What a kind lacks is an empty span.
#[derive(Clone, Copy, PartialEq, Eq)]
pub struct Parts {
    pub fields: Fields,
    pub name: Span,
    pub names: Span,
    pub rest: Span,
}

// A record that was read. Its spans lie in the work buffer or in the tag; `at` counts from the first frame byte.
#[derive(Drop)]
pub struct Record {
    pub heading: Heading,
    pub at: usize,
    pub in_work: bool,
    pub body: Span,
    pub name: Span,
    pub names: Span,
    pub rest: Span,
}

// The header of a frame. Its body, as stored, has `len` bytes from `start` on, counted from the frame's first byte; a short one has
// fewer than the header says.
#[derive(Clone, Copy)]
pub struct Head {
    pub id: u32,
    pub compressed: bool,
    pub flagged: bool,
    pub short: bool,
    pub start: usize,
    pub len: usize,
}
