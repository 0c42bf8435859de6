// The lines of the listing program, built into a lent buffer. What they say stands in format's specs/Listing.antt.
#![tactic(auto)]

ghost use Rattle.std.specs.Prelude.{◌≡◌, ◌+◌, ◌<◌, ◌^◌, ℕ, List, [], ◌∷◌, ◌++◌, length, leb};
ghost use Rattle.format.specs.Numbers.{bytes_of};
ghost use Rattle.format.specs.Ids.{id_len};
ghost use Rattle.format.specs.Listing.{decimal, hex_digit, hex_in, hex, word_kind, word_short, detail, tag_line, frame_line, end_line, refused_line};
ghost use Rattle.lines.specs.Placed.{placed_of, Room, Wrote, PutsLine, shown, body_part, counted};

use format::{Fields, Version};

// With ten added to it the letter A, the first hexadecimal digit that is none of 0-9.
const A_LESS_10: u8 = b'A' - 10;

// ---- bytes: each function puts bytes from a place on, as far as out goes, and answers the place after them

// One byte.
fn put_byte(out: &mut [u8], at: usize, byte: u8) -> usize
    requires { Room at (byte ∷ []) }
    ensures { Wrote out.old at (byte ∷ []) out.new result }
{
    let next = at + 1;
    if at < out.len() {
        out[at] = byte;
    }
    next
}

// A string of bytes.
fn put(out: &mut [u8], at: usize, bytes: &[u8]) -> usize
    requires { Room at bytes.now }
    ensures { Wrote out.old at bytes.now out.new result }
{
    let mut next = at;
    for byte in bytes {
        next = put_byte(out, next, *byte);
    }
    next
}

// A number in decimal: the digits of the quotient by ten, if there is one, then the last digit.
// Kept: no Display, since placed_of says how long a line is also where it has no room.
fn put_decimal(out: &mut [u8], at: usize, n: u64) -> usize
    requires { Room at (decimal n) }
    ensures { Wrote out.old at (decimal n) out.new result }
{
    if n < 10 {
        return put_byte(out, at, b'0' + n as u8);
    }
    let next = put_decimal(out, at, n / 10);
    put_byte(out, next, b'0' + (n % 10) as u8)
}

// A digit of sixteen, 0-9 and A-F.
fn hex_digit(d: u8) -> u8
    requires { d < 16 }
    ensures { result ≡ hex_digit d }
{
    if d < 10 { b'0' + d } else { A_LESS_10 + d }
}

// A byte in hexadecimal.
fn put_pair(out: &mut [u8], at: usize, byte: u8) -> usize
    requires { Room at (hex_in (byte ∷ [])) }
    ensures { Wrote out.old at (hex_in (byte ∷ [])) out.new result }
{
    let next = put_byte(out, at, hex_digit(byte / 16));
    put_byte(out, next, hex_digit(byte % 16))
}

// Bytes in hexadecimal, one after another.
fn put_pairs(out: &mut [u8], at: usize, bytes: &[u8]) -> usize
    requires { Room at (hex_in bytes.now) }
    ensures { Wrote out.old at (hex_in bytes.now) out.new result }
{
    let mut next = at;
    for byte in bytes {
        next = put_pair(out, next, *byte);
    }
    next
}

// Bytes in hexadecimal, a dash for none.
fn put_hex(out: &mut [u8], at: usize, bytes: &[u8]) -> usize
    requires { Room at (hex bytes.now) }
    ensures { Wrote out.old at (hex bytes.now) out.new result }
{
    if bytes.len() == 0 {
        put_byte(out, at, b'-')
    } else {
        put_pairs(out, at, bytes)
    }
}

// A word and a number.
fn put_numbered(out: &mut [u8], at: usize, word: &[u8], n: u64) -> usize
    requires { Room at (word.now ++ decimal n) }
    ensures { Wrote out.old at (word.now ++ decimal n) out.new result }
{
    let next = put(out, at, word);
    put_decimal(out, next, n)
}

// The bytes of a frame's id.
fn put_id(out: &mut [u8], at: usize, version: Version, id: u32) -> usize
    requires { Room at (bytes_of (id_len version) id) }
    ensures { Wrote out.old at (bytes_of (id_len version) id) out.new result }
{
    let bytes = [
        (id / 0x100_0000 % 0x100) as u8,
        (id / 0x1_0000 % 0x100) as u8,
        (id / 0x100 % 0x100) as u8,
        (id % 0x100) as u8,
    ];
    if let Version::Id3v22 = version {
        put(out, at, &bytes[1..])
    } else {
        put(out, at, &bytes[..])
    }
}

// ---- parts of a line, put in the same way

// The kind of a frame.
fn put_kind(out: &mut [u8], at: usize, fields: Fields) -> usize
    requires { Room at (word_kind fields) }
    ensures { Wrote out.old at (word_kind fields) out.new result }
{
    match fields {
        Fields::Text { .. } => put(out, at, b" text"),
        Fields::Popularimeter { .. } => put(out, at, b" popularimeter"),
        Fields::Table { .. } => put(out, at, b" table"),
        Fields::Chapter { .. } => put(out, at, b" chapter"),
        Fields::Contents { .. } => put(out, at, b" contents"),
        Fields::Raw => put(out, at, b" raw"),
    }
}

// Whether a body was cut.
fn put_short(out: &mut [u8], at: usize, short: bool) -> usize
    requires { Room at (word_short short) }
    ensures { Wrote out.old at (word_short short) out.new result }
{
    if short {
        put(out, at, b" short")
    } else {
        put(out, at, b" whole")
    }
}

// What the line of a popularimeter goes on with: user, rating and counter.
fn put_detail(out: &mut [u8], at: usize, fields: Fields, user: &[u8]) -> usize
    requires { Room at (detail fields user.now) }
    ensures { Wrote out.old at (detail fields user.now) out.new result }
{
    if let Fields::Popularimeter { rating, counter } = fields {
        let behind_word = put(out, at, b" user ");
        let behind_user = put_hex(out, behind_word, user);
        let behind_rating = put_numbered(out, behind_user, b" rating ", rating as u64);
        put_numbered(out, behind_rating, b" counter ", counter)
    } else {
        at
    }
}

// ---- lines, put in the same way

// The line of a tag's header.
fn put_tag(out: &mut [u8], at: usize, edition: u8, size: u32, flags: u8, ext: u32) -> usize
    requires { Room at (tag_line edition size flags ext) }
    ensures { Wrote out.old at (tag_line edition size flags ext) out.new result }
{
    let behind_edition = put_numbered(out, at, b"tag 2.", edition as u64);
    let behind_size = put_numbered(out, behind_edition, b" size ", size as u64);
    let behind_flags = put_numbered(out, behind_size, b" flags ", flags as u64);
    let behind_ext = put_numbered(out, behind_flags, b" ext ", ext as u64);
    put(out, behind_ext, b"\n")
}

// What the line of a frame says of its body: its bytes, its kind, whole or short, and a popularimeter's fields.
fn put_body(
    out: &mut [u8],
    at: usize,
    body: usize,
    short: bool,
    fields: Fields,
    user: &[u8],
) -> usize
    requires { Room at (body_part body short fields user.now) }
    ensures { Wrote out.old at (body_part body short fields user.now) out.new result }
{
    let behind_body = put_numbered(out, at, b" body ", body as u64);
    let behind_kind = put_kind(out, behind_body, fields);
    let behind_short = put_short(out, behind_kind, short);
    let behind_detail = put_detail(out, behind_short, fields, user);
    put(out, behind_detail, b"\n")
}

// The line of a frame.
fn put_frame(
    out: &mut [u8],
    at: usize,
    number: usize,
    version: Version,
    id: u32,
    place: usize,
    body: usize,
    short: bool,
    fields: Fields,
    user: &[u8],
) -> usize
    requires { Room at (frame_line number (bytes_of (id_len version) id) place body short fields user.now) }
    ensures { Wrote out.old at (frame_line number (bytes_of (id_len version) id) place body short fields user.now) out.new result }
{
    let behind_number = put_numbered(out, at, b"frame ", number as u64);
    let behind_space = put(out, behind_number, b" ");
    let behind_id = put_id(out, behind_space, version, id);
    let behind_place = put_numbered(out, behind_id, b" at ", place as u64);
    put_body(out, behind_place, body, short, fields, user)
}

// A line of a word and a number.
fn put_counted(out: &mut [u8], at: usize, word: &[u8], n: u64) -> usize
    requires { Room at (counted word.now n) }
    ensures { Wrote out.old at (counted word.now n) out.new result }
{
    let next = put_numbered(out, at, word, n);
    put(out, next, b"\n")
}

// ---- whole lines or nothing: each line is first put into an empty part of out, where nothing is stored, which tells its length

// Whether len bytes from a place on lie before an end.
fn fits(end: usize, at: usize, len: usize) -> bool
    ensures { result ≡ leb (at + len) end }
{
    if end < at { false } else { len <= end - at }
}

// How many bytes of a user a frame's line shows.
fn shown_bytes(fields: Fields, user: &[u8]) -> usize
    ensures { result ≡ shown fields (length user.now) }
{
    if let Fields::Popularimeter { .. } = fields {
        user.len()
    } else {
        0
    }
}

// A line that put puts, from a place on, if out has room for all of it.
fn whole<F: Fn(&mut [u8], usize) -> usize>(out: &mut [u8], at: usize, put: F) -> Option<usize>
    requires { (line : List ℕ) × (length line < 2 ^ 64) × PutsLine (F.pre put) (F.post put) line }
    ensures { (line : List ℕ) → PutsLine (F.pre put) (F.post put) line → (result, out.new) ≡ placed_of line at out.old }
{
    let end = out.len();
    let len = put(&mut out[..0], 0);
    if fits(end, at, len) {
        Some(put(out, at))
    } else {
        None
    }
}

// A line of a short word and a number.
fn counted_line(out: &mut [u8], at: usize, word: &[u8], n: u64) -> Option<usize>
    requires { length word.now < 256 }
    ensures { (result, out.new) ≡ placed_of (counted word.now n) at out.old }
{
    whole(out, at, |out, at| put_counted(out, at, word, n))
}

// The line of a tag's header: edition, size, flag byte and extended size.
pub fn tag_line(
    out: &mut [u8],
    at: usize,
    edition: u8,
    size: u32,
    flags: u8,
    ext: u32,
) -> Option<usize>
    ensures { (result, out.new) ≡ placed_of (tag_line edition size flags ext) at out.old }
{
    whole(
        out,
        at,
        |out, at| put_tag(out, at, edition, size, flags, ext),
    )
}

// The line of a frame: its number, its id, its place, the bytes of its body, its kind, whether it is short, and a popularimeter's fields.
pub fn frame_line(
    out: &mut [u8],
    at: usize,
    number: usize,
    version: Version,
    id: u32,
    place: usize,
    body: usize,
    short: bool,
    fields: Fields,
    user: &[u8],
) -> Option<usize>
    ensures { (result, out.new) ≡ placed_of (frame_line number (bytes_of (id_len version) id) place body short fields user.now) at out.old }
{
    if out.len() / 2 < shown_bytes(fields, user) {
        return None;
    }
    whole(out, at, |out, at| {
        put_frame(
            out, at, number, version, id, place, body, short, fields, user,
        )
    })
}

// The last line of a tag that was read to its end: the number of its frames.
pub fn end_line(out: &mut [u8], at: usize, number: usize) -> Option<usize>
    ensures { (result, out.new) ≡ placed_of (end_line number) at out.old }
{
    counted_line(out, at, b"end ", number as u64)
}

// The last line of a tag that was refused: the number of the refusal.
pub fn refused_line(out: &mut [u8], at: usize, number: u8) -> Option<usize>
    ensures { (result, out.new) ≡ placed_of (refused_line number) at out.old }
{
    counted_line(out, at, b"refused ", number as u64)
}
