// The listing of a tag, line after line in a lent buffer. What the lines are stands in specs/Lines.antt.
#![tactic(auto)]

ghost use Rattle.std.specs.Prelude.{◌≡◌, ◌<◌, length};
ghost use Rattle.lines.specs.Placed.{placed_of};
ghost use Rattle.reader.specs.Reader.{header_of};
ghost use Rattle.printout.specs.Lines.{record_line, record_in, opened_lines, frame_lines, lines_of};
ghost use Rattle.printout.specs.Turns.{put_lines};

use format::{Record, Version};
use lines::{end_line, frame_line, refused_line, tag_line};
use reader::headers::header;
use reader::opening::open;
use reader::{Header, Reader};

// Puts the line of a record whose parts lie in s.
fn put_line(
    out: &mut [u8],
    s: &[u8],
    at: usize,
    number: usize,
    version: Version,
    r: Record,
) -> Option<usize>
    ensures { (result, out.new) ≡ placed_of (record_line version number r s.now) at out.old }
{
    let heading = r.heading;
    let from = r.name.start.min(s.len());
    let to = from + r.name.len.min(s.len() - from);
    frame_line(
        out,
        at,
        number,
        version,
        heading.id,
        r.at,
        r.body.len,
        heading.short,
        heading.fields,
        &s[from..to],
    )
}

// Puts the line of a record that was read from the tag with that work buffer.
fn put_record(
    out: &mut [u8],
    work: &[u8],
    tag: &[u8],
    at: usize,
    number: usize,
    version: Version,
    r: Record,
) -> Option<usize>
    ensures { (result, out.new) ≡ placed_of (record_in version number r tag.now work.now) at out.old }
{
    let s = if r.in_work { work } else { tag };
    put_line(out, s, at, number, version, r)
}

// Puts the lines of the frames from the reader's place on, and the last line. A tag has fewer frames than bytes.
fn put_frames(
    work: &mut [u8],
    out: &mut [u8],
    tag: &[u8],
    at: usize,
    reader: Reader,
) -> Option<usize>
    ensures { let lines = frame_lines (length tag.now) tag.now reader 0 work.old in
        (result, (work.new, out.new)) ≡ put_lines lines at work.old out.old }
{
    let mut behind = at;
    let mut moved = reader;
    for number in 0..tag.len() {
        let (found, next) = moved.step(work, tag);
        moved = next;
        match found {
            Ok(Some(record)) => {
                behind = put_record(out, work, tag, behind, number, moved.version, record)?;
            }
            Ok(None) => return end_line(out, behind, number),
            Err(refusal) => return refused_line(out, behind, refusal.number),
        }
    }
    Some(behind)
}

// Opens the tag and puts the lines after its header's.
fn put_opened(work: &mut [u8], out: &mut [u8], tag: &[u8], at: usize) -> Option<usize>
    requires { 0 < length tag.now }
    ensures { let lines = opened_lines tag.now work.old in
        (result, (work.new, out.new)) ≡ put_lines lines at work.old out.old }
{
    match open(work, tag) {
        Ok(r) => put_frames(work, out, tag, at, r),
        Err(refusal) => refused_line(out, at, refusal.number),
    }
}

// Puts the lines of the tag whose header is h.
fn put_tag(work: &mut [u8], out: &mut [u8], tag: &[u8], h: Header) -> Option<usize>
    requires { header_of tag.now ≡ Ok h }
    ensures { let lines = lines_of tag.now work.old in
        (result, (work.new, out.new)) ≡ put_lines lines 0 work.old out.old }
{
    let at = tag_line(out, 0, u8::from(h.version), h.size, h.flags, h.ext)?;
    put_opened(work, out, tag, at)
}

// Lists a tag: the header's line, one for each frame of the top level, and the last line, with the end or a refusal. They
// are put one after the other from the front of `out` on; where one has no room, the listing stops there.
pub fn list(work: &mut [u8], out: &mut [u8], tag: &[u8]) -> Option<usize>
    ensures { let lines = lines_of tag.now work.old in
        (result, (work.new, out.new)) ≡ put_lines lines 0 work.old out.old }
{
    match header(tag) {
        Ok(h) => put_tag(work, out, tag, h),
        Err(refusal) => refused_line(out, 0, refusal.number),
    }
}
