// Synchsafe numbers, resynchronising and unsynchronising.
#![tactic(auto)]

mod blocks;
mod loops;

ghost use Rattle.std.specs.Prelude.{◌≡◌, length, true, false, ◌&&◌, ◌∷◌};
ghost use Rattle.std.proofs.Math.Seq.{slice};
ghost use Rattle.format.specs.Numbers.{bytes_of, from_synchsafe};
ghost use Rattle.format.specs.Unsynch.{resynchronised, guards, unsync};
ghost use Rattle.unsynch.specs.Puts.{encoded_of, put_of, into_of, in_area_of, placed_of};
ghost use Rattle.unsynch.specs.Edits.{Known, edited};
ghost use Rattle.format.specs.Bytes.{pick};

use format::Mode;
use format::refusals::{NO_ROOM, Refusal, TOO_LONG, WORK_TOO_SMALL};
use loops::How;

// The synchsafe form of n: four bytes, each the next seven bits, highest first.
#[tactic(auto, using(crate::proofs::Synchsafe::encoded_by_digits))]
pub fn encode_u32(n: u32) -> Result<u32, Refusal>
    ensures { result ≡ encoded_of n }
{
    if n >= 0x1000_0000 {
        return Err(TOO_LONG);
    }
    let first = n / 128 / 128 / 128 % 128;
    let second = n / 128 / 128 % 128;
    let third = n / 128 % 128;
    let fourth = n % 128;
    Ok(first * 0x100_0000 + second * 0x1_0000 + third * 0x100 + fourth)
}

// The number that four synchsafe bytes make: each moves to its seven-bit place, and a bit 7 is joined by or.
pub fn decode_u32(n: u32) -> u32
    ensures { result ≡ from_synchsafe (bytes_of 4 n) }
{
    ((n & 0xFF00_0000) >> 3) | ((n & 0xFF_0000) >> 2) | ((n & 0xFF00) >> 1) | n & 0xFF
}

// Whether a 00 goes in before b; prev says that the byte before it was FF.
pub fn is_guarded(mode: Mode, prev: bool, b: u8) -> bool
    ensures { result ≡ (prev && guards mode b) }
{
    loops::hit(loops::unsync_by(mode), prev, b)
}

// How many bytes s[from..to] has when it is unsynchronised; prev says that the byte before it was FF.
pub fn unsync_len(s: &[u8], from: usize, to: usize, prev: bool, mode: Mode) -> usize
    ensures { result ≡ length (unsync (guards mode) prev (slice from to s.now)) }
{
    let how = loops::unsync_by(mode);
    let end = to.min(s.len());
    if end <= from {
        return 0;
    }
    if !how.zero {
        return end - from;
    }
    usize::from(loops::hit(how, prev, s[from])) + loops::edited_len(s, from, end, how)
}

// Resynchronises s[from..to] to the front of a room. One that is too small is left as it was.
pub fn resync_into(room: &mut [u8], s: &[u8], from: usize, to: usize) -> Result<usize, Refusal>
    ensures { (result, room.new) ≡ into_of (resynchronised (slice from to s.now)) room.old }
{
    put_part(room, 0, s, from, to, loops::resync_by(), WORK_TOO_SMALL)
}

// Unsynchronises s[from..to] to the place `at` of a buffer; prev says that the byte before it was FF. A buffer that is too small is left as it was.
pub fn unsync_into(
    out: &mut [u8],
    at: usize,
    s: &[u8],
    from: usize,
    to: usize,
    prev: bool,
    mode: Mode,
) -> Result<usize, Refusal>
    ensures { (result, out.new) ≡ placed_of (unsync (guards mode) prev (slice from to s.now)) at out.old }
{
    let how = loops::unsync_by(mode);
    if is_led(s, from, to, prev, how) {
        return put_led(out, at, s, from, to, how);
    }
    put_part(out, at, s, from, to, how, NO_ROOM)
}

// Resynchronises area[from..to], of what lies before split, to the front of what lies from split on.
// Where that is too small, the area is left as it was.
pub fn resync_in(area: &mut [u8], from: usize, to: usize, split: usize) -> Result<usize, Refusal>
    ensures { (result, area.new) ≡ in_area_of from to split area.old }
{
    let mid = split.min(area.len());
    let end = to.min(mid);
    if end <= from {
        return Ok(0);
    }
    let how = loops::resync_by();
    if loops::fits(&area[..], from, end, how, area.len() - mid) {
        return Ok(loops::edit_in(area, mid, from, end, how) - mid);
    }
    Err(WORK_TOO_SMALL)
}

// Whether a 00 goes in before s[from..to] when it is edited; prev says that the byte before it was FF.
fn is_led(s: &[u8], from: usize, to: usize, prev: bool, how: How) -> bool
    requires { how.insert ≡ true }
    ensures { let u = edited how false (slice from to s.now) in edited how «prev» (slice from to s.now) ≡ pick result (0 ∷ u) u }
{
    let end = to.min(s.len());
    if end <= from {
        return false;
    }
    loops::hit(how, prev, s[from])
}

// Puts a 00 and s[from..to], edited, at the place `at` of a buffer. One that is too small is left as it was.
fn put_led(
    out: &mut [u8],
    at: usize,
    s: &[u8],
    from: usize,
    to: usize,
    how: How,
) -> Result<usize, Refusal>
    requires { Known how }
    ensures { (result, out.new) ≡ placed_of (0 ∷ edited how false (slice from to s.now)) at out.old }
{
    if out.len() <= at {
        return Err(NO_ROOM);
    }
    let n = put_part(out, at + 1, s, from, to, how, NO_ROOM)?;
    out[at] = 0;
    Ok(n + 1)
}

// Puts s[from..to], edited, at the place `at` of a buffer. One that is too small is left as it was, and the answer is that refusal.
fn put_part(
    buf: &mut [u8],
    at: usize,
    s: &[u8],
    from: usize,
    to: usize,
    how: How,
    k: Refusal,
) -> Result<usize, Refusal>
    requires { Known how }
    ensures { (result, buf.new) ≡ put_of k.number (edited how false (slice from to s.now)) at buf.old }
{
    if buf.len() < at {
        return Err(k);
    }
    let end = to.min(s.len());
    if end <= from {
        return Ok(0);
    }
    if loops::fits(s, from, end, how, buf.len() - at) {
        return Ok(loops::edit(buf, at, s, from, end, how) - at);
    }
    Err(k)
}
