// Reading the cases of writing: what a case says, and its records. Their layout stands in tests/records.py.
#![tactic(auto)]

ghost use Rattle.std.specs.Prelude.{◌≡◌, min, take};
ghost use Rattle.std.specs.Io.{ReadsAtMost};

use format::{Fields, Given, Heading};
use std::io;
use std::io::Read;
use test_prints::input::{next_bytes, next_u8, next_u32, next_u64};

// A case apart from its records. Its last lengths are of the collecting buffer, of what is lent beside the output, and of the output.
#[derive(Clone, Copy)]
pub struct Case {
    pub version: u8,
    pub by_mode: bool,
    pub mode: u8,
    pub altered: bool,
    pub padding: u64,
    pub buffer: u32,
    pub lent: u32,
    pub output: u32,
    pub records: u32,
}

// A case whose version was read.
pub fn next_case<R: Read>(from: &mut R, version: &[u8; 1]) -> io::Result<Case> {
    Ok(Case {
        version: version[0],
        by_mode: next_u8(from)? != 0,
        mode: next_u8(from)?,
        altered: next_u8(from)? != 0,
        padding: next_u64(from)?,
        buffer: next_u32(from)?,
        lent: next_u32(from)?,
        output: next_u32(from)?,
        records: next_u32(from)?,
    })
}

// The low bytes of a number.
// Kept: one expression each.
fn low_8(n: u64) -> u8 {
    (n % 256) as u8
}

fn low_16(n: u64) -> u16 {
    (n % 65536) as u16
}

fn low_32(n: u64) -> u32 {
    (n % 4294967296) as u32
}

// A kind with its numbers, of the five that every record has.
fn fields(kind: u8, a: u64, b: u64, c: u64, d: u64, e: u64) -> Fields {
    match kind {
        0 => Fields::Text { encoding: low_8(a) },
        1 => Fields::Popularimeter {
            rating: low_8(a),
            counter: b,
        },
        2 => Fields::Table {
            frames: low_16(a),
            bytes: low_32(b),
            millis: low_32(c),
            bits_for_bytes: low_8(d),
            bits_for_millis: low_8(e),
        },
        3 => Fields::Chapter {
            start_time: low_32(a),
            end_time: low_32(b),
            start_offset: low_32(c),
            end_offset: low_32(d),
        },
        4 => Fields::Contents {
            top_level: a != 0,
            ordered: b != 0,
        },
        _ => Fields::Raw,
    }
}

// The next five numbers, as a kind has them.
fn next_fields<R: Read>(from: &mut R, kind: u8) -> io::Result<Fields> {
    let a = next_u64(from)?;
    let b = next_u64(from)?;
    let c = next_u64(from)?;
    let d = next_u64(from)?;
    let e = next_u64(from)?;
    Ok(fields(kind, a, b, c, d, e))
}

// The heading of the record that comes next.
pub fn next_heading<R: Read>(from: &mut R) -> io::Result<Heading> {
    let kind = next_u8(from)?;
    let id = next_u32(from)?;
    let short = next_u8(from)? != 0;
    let compressed = next_u8(from)? != 0;
    let fields = next_fields(from, kind)?;
    Ok(Heading {
        id,
        short,
        compressed,
        fields,
    })
}

// Puts the next n numbers at the front of a space, or as many as it takes, and answers how many.
pub fn next_numbers<R: Read>(from: &mut R, space: &mut [u32], n: u32) -> io::Result<usize>
    ensures { ReadsAtMost result space.new }
{
    let len = space.len().min(n as usize);
    for x in &mut space[..len] {
        *x = next_u32(from)?;
    }
    Ok(len)
}

// Up to 4096 bytes or numbers, and how many there are.
#[derive(Drop)]
struct Part<T> {
    space: [T; 4096],
    len: usize,
}

impl<T> Part<T> {
    // Those that are there.
    fn lent(&self) -> &[T]
        ensures { result.now ≡ take (min self.now.len 4096) self.now.space }
    {
        &self.space[..self.len.min(self.space.len())]
    }
}

// What comes with the heading of a record.
#[derive(Drop)]
pub struct Parts {
    name: Part<u8>,
    names: Part<u8>,
    rest: Part<u8>,
    deviations: Part<u32>,
}

impl Parts {
    // Nothing yet.
    pub fn new() -> Parts
        ensures { (result.name.len ≡ 0) × ((result.names.len ≡ 0) × ((result.rest.len ≡ 0) × (result.deviations.len ≡ 0))) }
    {
        Parts {
            name: Part {
                space: [0u8; 4096],
                len: 0,
            },
            names: Part {
                space: [0u8; 4096],
                len: 0,
            },
            rest: Part {
                space: [0u8; 4096],
                len: 0,
            },
            deviations: Part {
                space: [0u32; 4096],
                len: 0,
            },
        }
    }

    // It, as it is given to a call.
    pub fn given(&self) -> Given<'_>
        ensures name { result.name.now ≡ take (min self.now.name.len 4096) self.now.name.space }
        ensures names { result.names.now ≡ take (min self.now.names.len 4096) self.now.names.space }
        ensures rest { result.rest.now ≡ take (min self.now.rest.len 4096) self.now.rest.space }
        ensures deviations { result.deviations.now ≡ take (min self.now.deviations.len 4096) self.now.deviations.space }
    {
        Given {
            name: self.name.lent(),
            names: self.names.lent(),
            rest: self.rest.lent(),
            deviations: self.deviations.lent(),
        }
    }
}

// The next number and as many bytes.
fn next_part<R: Read>(from: &mut R, part: &mut Part<u8>) -> io::Result<()> {
    let n = next_u32(from)?;
    part.len = next_bytes(from, &mut part.space, n)?;
    Ok(())
}

// The next number and as many numbers.
fn next_deviations<R: Read>(from: &mut R, part: &mut Part<u32>) -> io::Result<()> {
    let n = next_u32(from)?;
    part.len = next_numbers(from, &mut part.space, n)?;
    Ok(())
}

// Puts what comes with the heading that was read where it is to stay, since it is too large to be moved about.
pub fn next_parts<R: Read>(from: &mut R, parts: &mut Parts) -> io::Result<()> {
    next_part(from, &mut parts.name)?;
    next_part(from, &mut parts.names)?;
    next_part(from, &mut parts.rest)?;
    next_deviations(from, &mut parts.deviations)
}
