// One frame: its header and its stored body put into a lent buffer, and its stored body measured.
ghost use Rattle.std.specs.Prelude.{◌≡◌, ◌+◌, ◌^◌, ◌≤◌, ◌<◌, ◌++◌, length};
ghost use Rattle.std.proofs.lemmas.List.Edits.{sets};
ghost use Rattle.format.specs.Bytes.{pick};
ghost use Rattle.format.specs.Numbers.{bytes_of};
ghost use Rattle.format.specs.Unsynch.{is_on};
ghost use Rattle.format.specs.Frame.{head_len};
ghost use Rattle.format.specs.Record.{given_content, given_rec};
ghost use Rattle.format.specs.Encode.{body_bytes, stored_of, head_bytes, encode};
ghost use Rattle.writer.specs.Pens.{Sized};
ghost use Rattle.writer.specs.Layouts.{Puttable, body_mode};

use crate::bodies::{measure_body, put_body};
use crate::numbers::{put_digits, synchsafe_word};
use crate::pens::Pen;
use format::numbered::head_len;
use format::{Given, Heading, Mode, Version};

// The mode by which a body is stored: before 2.4 it is stored as it is.
fn body_mode(version: Version, mode: Mode) -> Mode
    ensures { result ≡ body_mode version mode }
{
    match version {
        Version::Id3v22 | Version::Id3v23 => Mode::Off,
        Version::Id3v24 => mode,
    }
}

// The flags of a 2.4 frame: 0002 where its body is unsynchronised.
fn frame_flags(mode: Mode) -> u64
    ensures { result ≡ pick (is_on mode) 2 0 }
{
    match mode {
        Mode::Off => 0,
        Mode::Crate | Mode::Standard => 2,
    }
}

// Puts the ten bytes of a header from 2.3 on: id, size, flags.
fn put_long(buffer: &mut [u8], at: usize, id: u32, size: u64, flags: u64)
    requires { at + 10 ≤ length buffer.old }
    ensures { buffer.new ≡ sets buffer.old at (bytes_of 4 id ++ (bytes_of 4 size ++ bytes_of 2 flags)) }
{
    put_digits(buffer, at, 4, u64::from(id));
    put_digits(buffer, at + 4, 4, size);
    put_digits(buffer, at + 8, 2, flags);
}

// Puts the six bytes of a 2.2 header: id, size.
// Kept: put_long has three fields and this two; what they share is put_digits.
fn put_short(buffer: &mut [u8], at: usize, id: u32, size: usize)
    requires { at + 6 ≤ length buffer.old }
    ensures { buffer.new ≡ sets buffer.old at (bytes_of 3 id ++ bytes_of 3 size) }
{
    put_digits(buffer, at, 3, u64::from(id));
    put_digits(buffer, at + 3, 3, size as u64);
}

// Puts a frame's header, and answers the place after it.
fn put_head(
    buffer: &mut [u8],
    at: usize,
    version: Version,
    mode: Mode,
    id: u32,
    size: usize,
) -> usize
    requires { (at + head_len version ≤ length buffer.old) × (size < 2 ^ 28) }
    ensures { (result ≡ at + head_len version) × (buffer.new ≡ sets buffer.old at (head_bytes version mode id size)) }
{
    match version {
        Version::Id3v22 => put_short(buffer, at, id, size),
        Version::Id3v23 => put_long(buffer, at, id, size as u64, 0),
        Version::Id3v24 => put_long(buffer, at, id, synchsafe_word(size), frame_flags(mode)),
    }
    at + head_len(version)
}

// How long the stored body of a record is.
// Kept: a twin of put_frame: putting asks for room and says each byte, measuring asks for nothing and stops counting at LIMIT.
#[tactic(auto, using(crate::proofs::Heads::stored_length))]
pub(crate) fn measure_frame(
    version: Version,
    mode: Mode,
    heading: Heading,
    given: &Given<'_>,
) -> usize
    requires { Puttable (given_content heading.fields given.now) }
    ensures { let content = given_content heading.fields given.now in
        Sized (length (stored_of version mode (body_bytes content))) result }
{
    measure_body(
        Pen { at: 0, prev: false },
        body_mode(version, mode),
        heading.fields,
        given,
    )
}

// Puts a record's frame from `at` on, its stored body being `size` bytes, and answers the place after it.
pub(crate) fn put_frame(
    buffer: &mut [u8],
    at: usize,
    version: Version,
    mode: Mode,
    heading: Heading,
    given: &Given<'_>,
    size: usize,
) -> usize
    requires { let whole = given_rec heading given.now in
        Puttable whole.content
        × (size ≡ length (stored_of version mode (body_bytes whole.content)))
        × (size < 2 ^ 28)
        × (at + length (encode version mode whole) ≤ length buffer.old) }
    ensures { let frame = encode version mode (given_rec heading given.now) in
        (result ≡ at + length frame) × (buffer.new ≡ sets buffer.old at frame) }
{
    let behind = put_head(buffer, at, version, mode, heading.id, size);
    let end = put_body(
        buffer,
        Pen {
            at: behind,
            prev: false,
        },
        body_mode(version, mode),
        heading.fields,
        given,
    );
    end.at
}
