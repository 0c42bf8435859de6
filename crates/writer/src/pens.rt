// Bytes put into a lent buffer at a pen, unsynchronised as they are put, and measured without being put.
ghost use Rattle.std.specs.Prelude.{◌≡◌, ◌≤◌, [], ◌∷◌, length};
ghost use Rattle.format.specs.Unsynch.{ends_ff};
ghost use Rattle.writer.specs.Pens.{pen_after, put_of, Paced};

use format::Mode;
use unsynch::{is_guarded, unsync_into, unsync_len};

// The place of the next byte, and whether the byte before it was FF.
#[derive(Drop)]
pub(crate) struct Pen {
    pub(crate) at: usize,
    pub(crate) prev: bool,
}

// Whether the last byte of s is FF; of no bytes, what was before.
#[tactic(auto, using(crate::proofs::Puts::ends_none, crate::proofs::Puts::ends_last))]
fn ends_ff(s: &[u8], prev: bool) -> bool
    ensures { result ≡ ends_ff prev s.now }
{
    match s.last() {
        Some(b) => *b == 0xFF,
        None => prev,
    }
}

// Puts b at the pen.
pub(crate) fn put_byte(buffer: &mut [u8], pen: Pen, mode: Mode, b: u8) -> Pen
    requires { (pen_after mode pen (b ∷ [])).at ≤ length buffer.old }
    ensures { (result, buffer.new) ≡ put_of mode pen (b ∷ []) buffer.old }
{
    let mut at = pen.at;
    if is_guarded(mode, pen.prev, b) {
        buffer[at] = 0;
        at += 1;
    }
    buffer[at] = b;
    Pen {
        at: at + 1,
        prev: b == 0xFF,
    }
}

// Puts s at the pen.
pub(crate) fn put_bytes(buffer: &mut [u8], pen: Pen, mode: Mode, s: &[u8]) -> Pen
    requires { (pen_after mode pen s.now).at ≤ length buffer.old }
    ensures { (result, buffer.new) ≡ put_of mode pen s.now buffer.old }
{
    match unsync_into(buffer, pen.at, s, 0, s.len(), pen.prev, mode) {
        Ok(n) => Pen {
            at: pen.at + n,
            prev: ends_ff(s, pen.prev),
        },
        Err(_) => pen,
    }
}

// A size from which on it does not matter how large it is: no body is that long.
pub(crate) const LIMIT: usize = 0x1000_0000;

// The pen after s, which is not put.
// Kept: a twin of put_bytes: putting asks for room and says each byte, measuring asks for nothing and stops counting at LIMIT.
pub(crate) fn measure_bytes(pen: Pen, mode: Mode, s: &[u8]) -> Pen
    ensures { Paced (pen_after mode pen s.now) result }
{
    if pen.at >= LIMIT || s.len() >= LIMIT {
        return Pen {
            at: LIMIT,
            prev: false,
        };
    }
    Pen {
        at: pen.at + unsync_len(s, 0, s.len(), pen.prev, mode),
        prev: ends_ff(s, pen.prev),
    }
}

// The pen after b, which is not put.
// Kept: a twin of put_byte: putting asks for room and says each byte, measuring asks for nothing and stops counting at LIMIT.
#[tactic(auto, using(crate::proofs::Puts::byte_pen))]
pub(crate) fn measure_byte(pen: Pen, mode: Mode, b: u8) -> Pen
    ensures { Paced (pen_after mode pen (b ∷ [])) result }
{
    if pen.at >= LIMIT {
        return Pen {
            at: LIMIT,
            prev: false,
        };
    }
    let width = if is_guarded(mode, pen.prev, b) { 2 } else { 1 };
    Pen {
        at: pen.at + width,
        prev: b == 0xFF,
    }
}
