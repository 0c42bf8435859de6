// What is printed of a record and of a room.
use format::{Fields, Heading, Record, Span};
use std::io;
use std::io::Write;
use test_prints::{decimal, either, say};

// Two numbers.
fn two<W: Write>(to: &mut W, a: u32, b: u32) -> io::Result<()> {
    decimal(to, u64::from(a))?;
    decimal(to, u64::from(b))
}

// A kind and its numbers.
fn fields<W: Write>(to: &mut W, f: Fields) -> io::Result<()> {
    match f {
        Fields::Text { encoding } => {
            say(to, b" text")?;
            decimal(to, u64::from(encoding))
        }
        Fields::Popularimeter { rating, counter } => {
            say(to, b" popularimeter")?;
            decimal(to, u64::from(rating))?;
            decimal(to, counter)
        }
        Fields::Table {
            frames,
            bytes,
            millis,
            bits_for_bytes,
            bits_for_millis,
        } => {
            say(to, b" table")?;
            decimal(to, u64::from(frames))?;
            two(to, bytes, millis)?;
            two(to, u32::from(bits_for_bytes), u32::from(bits_for_millis))
        }
        Fields::Chapter {
            start_time,
            end_time,
            start_offset,
            end_offset,
        } => {
            say(to, b" chapter")?;
            two(to, start_time, end_time)?;
            two(to, start_offset, end_offset)
        }
        Fields::Contents { top_level, ordered } => {
            say(to, b" contents")?;
            either(to, top_level, b" 1", b" 0")?;
            either(to, ordered, b" 1", b" 0")
        }
        Fields::Raw => say(to, b" raw"),
    }
}

// An id, a kind with its numbers, and the marks.
fn heading<W: Write>(to: &mut W, h: Heading) -> io::Result<()> {
    say(to, b" frame ")?;
    write!(to, "{:08x}", h.id)?;
    fields(to, h.fields)?;
    either(to, h.short, b" short", b" whole")?;
    either(to, h.compressed, b" compressed", b" plain")
}

// A span after its name.
fn span<W: Write>(to: &mut W, word: &[u8], s: Span) -> io::Result<()> {
    say(to, word)?;
    decimal(to, s.start as u64)?;
    decimal(to, s.len as u64)
}

// A record and the place after it.
pub fn frame<W: Write>(to: &mut W, r: Record, next: usize) -> io::Result<()> {
    heading(to, r.heading)?;
    say(to, b" at")?;
    decimal(to, r.at as u64)?;
    either(to, r.in_work, b" work", b" tag")?;
    spans(to, r)?;
    say(to, b" next")?;
    decimal(to, next as u64)
}

// The spans of a record.
fn spans<W: Write>(to: &mut W, r: Record) -> io::Result<()> {
    span(to, b" body", r.body)?;
    span(to, b" name", r.name)?;
    span(to, b" names", r.names)?;
    span(to, b" rest", r.rest)
}

// What a room holds: its length, its first 64 bytes and, if there are more, the sums of all.
pub fn room<W: Write>(to: &mut W, s: &[u8]) -> io::Result<()> {
    let n = s.len().min(64);
    say(to, b" room")?;
    decimal(to, s.len() as u64)?;
    test_prints::hex(to, &s[..n])?;
    if s.len() > 64 {
        say(to, b" sum")?;
        test_prints::sums(to, s)?;
    }
    Ok(())
}
