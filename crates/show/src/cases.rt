// Listings of many tags. A case in the input is the length of the work buffer to lend and the length of the tag, each
// as four bytes, highest first, and the tag itself. The line `case N` goes before its listing; the first has number 1.
ghost use Rattle.std.specs.Prelude.{◌≤◌, length};

use crate::{room_for_text, show};
use loads::read32;
use std::io;
use std::io::{Read, Write};
use streams::read_full;

// Reads a tag of `len` bytes; answers whether it was all there.
fn read_tag<R: Read>(from: &mut R, area: &mut [u8], len: usize) -> io::Result<bool>
    requires { len ≤ length area.old }
{
    Ok(read_full(from, &mut area[..len])? == len)
}

// Lists a tag of `len` bytes with a work buffer of `room` bytes.
fn show_tag<W: Write>(
    to: &mut W,
    work: &mut [u8],
    text: &mut [u8],
    area: &[u8],
    room: usize,
    len: usize,
) -> io::Result<()>
    requires { (room ≤ length work.old) × (len ≤ length area.now) }
{
    show(to, &mut work[..room], text, &area[..len])
}

// Writes the line before a case.
fn show_number<W: Write>(to: &mut W, number: u64) -> io::Result<()> {
    writeln!(to, "case {number}")
}

// Lists the next case; answers false where there is none, or none that fits the buffers.
fn show_case<R: Read, W: Write>(
    from: &mut R,
    to: &mut W,
    area: &mut [u8],
    work: &mut [u8],
    text: &mut [u8],
    number: u64,
) -> io::Result<bool> {
    let mut head = [0u8; 8];
    if read_full(from, &mut head)? < 8 {
        return Ok(false);
    }
    let room = read32(&head, 0) as usize;
    let len = read32(&head, 4) as usize;
    if work.len() < room || area.len() < len || !read_tag(from, area, len)? {
        return Ok(false);
    }
    show_number(to, number)?;
    show_tag(to, work, text, area, room, len)?;
    Ok(true)
}

// Lists case after case.
fn show_cases<R: Read, W: Write>(
    from: &mut R,
    to: &mut W,
    area: &mut [u8],
    work: &mut [u8],
    text: &mut [u8],
) -> io::Result<()> {
    for number in 1..u64::MAX {
        if !show_case(from, to, area, work, text, number)? {
            break;
        }
    }
    Ok(())
}

// Lists the cases in the input.
pub fn run<R: Read, W: Write>(from: &mut R, to: &mut W) -> io::Result<()> {
    let mut area = [0u8; 65_536];
    let mut work = [0u8; 65_536];
    let mut text = room_for_text();
    show_cases(from, to, &mut area, &mut work, &mut text)
}
