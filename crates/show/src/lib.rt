// Listings on a stream: what the listing program does, for it and for the programs that try its limits.
#![tactic(auto)]

pub mod cases;

ghost use Rattle.std.specs.Prelude.{◌≡◌, length, replicate};
ghost use Rattle.printout.specs.Lines.{lines_of, text_room};
ghost use Rattle.printout.specs.Turns.{put_lines};

use format::refusals::{NO_ROOM, Refusal};
use lines::refused_line;
use printout::list;
use std::io;
use std::io::{Read, Write};
use streams::read_full;

// Writes the line of a refusal.
fn show_refused<W: Write>(to: &mut W, refusal: Refusal) -> io::Result<()> {
    let mut line = [0u8; 16];
    if let Some(n) = refused_line(&mut line, 0, refusal.number) {
        to.write_all(&line[..n])?;
    }
    Ok(())
}

// Writes the listing of a tag, which is first put into `text`; one that has no room there is refused, 20. What `work` and `text`
// hold then is the same where the writing fails.
pub fn show<W: Write>(to: &mut W, work: &mut [u8], text: &mut [u8], tag: &[u8]) -> io::Result<()>
    ensures { (work.new, text.new) ≡ (put_lines (lines_of tag.now work.old) 0 work.old text.old).1 }
{
    match list(work, text, tag) {
        Some(n) => to.write_all(&text[..n]),
        None => show_refused(to, NO_ROOM),
    }
}

// Whether the input has a byte more.
fn is_more<R: Read>(from: &mut R) -> io::Result<bool> {
    let mut next = [0u8; 1];
    Ok(read_full(from, &mut next)? == 1)
}

// A megabyte of zeros: room for the text of any tag of 65,536 bytes (`Room`, crates/room).
pub fn room_for_text() -> [u8; 1_048_576]
    ensures { (result ≡ replicate text_room 0) × (text_room ≡ length result) }
{
    [0; 1_048_576]
}

// The listing program: lists the tag that the input is, of at most 65,536 bytes.
pub fn run<R: Read, W: Write>(from: &mut R, to: &mut W) -> io::Result<()> {
    let mut area = [0u8; 65_536];
    let mut work = [0u8; 65_536];
    let mut text = room_for_text();
    let n = read_full(from, &mut area[..])?;
    if n == area.len() && is_more(from)? {
        return show_refused(to, NO_ROOM);
    }
    show(to, &mut work, &mut text, &area[..n])
}
