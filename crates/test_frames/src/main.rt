// Replays hand-made frames: reads cases from standard input, and prints for each what stands at its place and what the
// work buffer holds then. The layout of a case and of a line stands in tests/frames.py.
#![tactic(auto)]

mod print;

use format::numbered::version_of;
use format::refusals::Refusal;
use format::{Record, Version};
use std::io;
use std::io::{Read, Write};
use streams::read_full;
use test_prints::input::{next_bytes, next_u8, next_u32};
use test_prints::{decimal, say};
use walk::record::frame_at;

// A case apart from its bytes.
#[derive(Drop)]
struct Case {
    version: Version,
    in_work: bool,
    room: u32,
    begin: u32,
    at: u32,
    end: u32,
    len: u32,
}

// A case whose edition was read.
fn next_case<R: Read>(from: &mut R, edition: &[u8; 1]) -> io::Result<Case> {
    Ok(Case {
        version: version_of(u64::from(edition[0])),
        in_work: next_u8(from)? != 0,
        room: next_u32(from)?,
        begin: next_u32(from)?,
        at: next_u32(from)?,
        end: next_u32(from)?,
        len: next_u32(from)?,
    })
}

// What stands at a place.
fn answer<W: Write>(to: &mut W, shown: Result<Option<(Record, usize)>, Refusal>) -> io::Result<()> {
    match shown {
        Ok(None) => say(to, b" nothing"),
        Err(k) => {
            say(to, b" refused")?;
            decimal(to, u64::from(k.number))
        }
        Ok(Some((found, next))) => print::frame(to, found, next),
    }
}

// What stands at the place of a case, and the work buffer then.
fn shown<W: Write>(to: &mut W, case: Case, work: &mut [u8], tag: &[u8]) -> io::Result<()> {
    let v = case.version;
    let begin = case.begin as usize;
    let at = case.at as usize;
    let end = case.end as usize;
    answer(to, frame_at(work, tag, v, case.in_work, begin, at, end))?;
    print::room(to, work)?;
    say(to, b"\n")
}

// Lends a case its room beside the bytes.
fn replay<W: Write>(to: &mut W, case: Case, tag: &[u8]) -> io::Result<()> {
    let mut space = [0xA5u8; 65536];
    let n = space.len().min(case.room as usize);
    shown(to, case, &mut space[..n], tag)
}

// Reads a case and replays it, and answers whether there was one. Bytes that are a work buffer are lent as that, with an empty tag.
fn next<R: Read, W: Write>(from: &mut R, to: &mut W, number: u64) -> io::Result<bool> {
    let mut edition = [0u8; 1];
    if read_full(from, &mut edition)? < 1 {
        return Ok(false);
    }
    write!(to, "{number}")?;
    let case = next_case(from, &edition)?;
    let mut space = [0u8; 65536];
    let n = next_bytes(from, &mut space, case.len)?;
    if case.in_work {
        shown(to, case, &mut space[..n], b"")?;
    } else {
        replay(to, case, &space[..n])?;
    }
    Ok(true)
}

// The number of cases is not known, so that the loop counts up to one that no input reaches.
fn main(rt: HostRuntime) -> io::Result<()> {
    let mut from = rt.stdin();
    let mut to = rt.stdout();
    for number in 1..u64::MAX {
        if !next(&mut from, &mut to, number)? {
            break;
        }
    }
    Ok(())
}
