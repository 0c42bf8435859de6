// A table's references, packed highest bit first and put at a pen byte by byte.
ghost use Rattle.std.specs.Prelude.{◌≡◌, ◌%◌, ◌≤◌, ◌<◌, true, ◌∷◌, length};
ghost use Rattle.format.specs.Table.{pack, fit};
ghost use Rattle.writer.specs.Pens.{pen_after, put_of, Paced, Sized};
ghost use Rattle.writer.specs.Packs.{left, Ready, Packable};

use crate::pens::{LIMIT, Pen, measure_byte, put_byte};
use format::Mode;

// Bits that wait: the lowest `have` of acc, and after them the deviations from `i` on, of a and b bits by turns.
#[derive(Drop)]
struct Bits {
    acc: u64,
    have: u64,
    i: usize,
    a: u64,
    b: u64,
}

// A byte, and the bits after it.
#[derive(Drop)]
struct Next {
    byte: u8,
    bits: Bits,
}

// The same bits, with a whole byte of them in acc: the last is filled with 0 bits.
fn fetched(ds: &[u32], bits: Bits) -> Bits
    requires { Ready ds.now bits × (0 < length (left bits ds.now)) }
    ensures { Ready ds.now result × (8 ≤ result.have) × (left result ds.now ≡ left bits ds.now) }
{
    let mut acc = bits.acc;
    let mut have = bits.have;
    let mut i = bits.i;
    let mut a = bits.a;
    let mut b = bits.b;
    // Kept: the place i is part of the bits, which go on from call to call, so that a `for` over ds is no plainer.
    while have < 8 {
        let Some(d) = ds.get(i) else {
            return Bits {
                acc: acc << (8 - have),
                have: 8,
                i,
                a,
                b,
            };
        };
        acc = (acc << a) | u64::from(*d);
        have += a;
        (a, b) = (b, a);
        i += 1;
    }
    Bits { acc, have, i, a, b }
}

// The first byte of the bits that wait.
fn next_byte(ds: &[u32], bits: Bits) -> Next
    requires { Ready ds.now bits × (0 < length (left bits ds.now)) }
    ensures { Ready ds.now result.bits × (left bits ds.now ≡ result.byte ∷ left result.bits ds.now) }
{
    let full = fetched(ds, bits);
    let have = full.have - 8;
    Next {
        byte: ((full.acc >> have) % 256) as u8,
        bits: Bits {
            acc: full.acc,
            have,
            i: full.i,
            a: full.a,
            b: full.b,
        },
    }
}

// How many bytes the references take.
fn packed_len(ds: &[u32], v: u8, w: u8) -> usize
    requires { Packable v w ds.now }
    ensures { result ≡ length (pack v w ds.now) }
{
    let references = ds.len() / 2;
    let sum = usize::from(v + w);
    references / 8 * sum + (references % 8 * sum).div_ceil(8)
}

// Puts the references at the pen.
pub(crate) fn put_packed(buffer: &mut [u8], pen: Pen, mode: Mode, ds: &[u32], v: u8, w: u8) -> Pen
    requires packable { Packable v w ds.now }
    requires ds_in_bounds { (pen_after mode pen (pack v w ds.now)).at ≤ length buffer.old }
    ensures { (result, buffer.new) ≡ put_of mode pen (pack v w ds.now) buffer.old }
{
    let n = packed_len(ds, v, w);
    let mut bits = Bits {
        acc: 0,
        have: 0,
        i: 0,
        a: u64::from(v),
        b: u64::from(w),
    };
    let mut next = pen;
    for _ in 0..n {
        let step = next_byte(ds, bits);
        next = put_byte(buffer, next, mode, step.byte);
        bits = step.bits;
    }
    next
}

// The pen after the n bytes of the references, which are not put.
// Kept: a twin of put_packed: putting asks for room and says each byte, measuring asks for nothing and stops counting at LIMIT.
fn pace_packed(pen: Pen, mode: Mode, ds: &[u32], v: u8, w: u8, n: usize) -> Pen
    requires { Packable v w ds.now × (n ≡ length (pack v w ds.now)) }
    ensures { Paced (pen_after mode pen (pack v w ds.now)) result }
{
    let mut bits = Bits {
        acc: 0,
        have: 0,
        i: 0,
        a: u64::from(v),
        b: u64::from(w),
    };
    let mut next = pen;
    for _ in 0..n {
        let step = next_byte(ds, bits);
        next = measure_byte(next, mode, step.byte);
        bits = step.bits;
    }
    next
}

// The place after the references, which are not put.
pub(crate) fn measure_packed(pen: Pen, mode: Mode, ds: &[u32], v: u8, w: u8) -> usize
    requires { Packable v w ds.now }
    ensures { Sized (pen_after mode pen (pack v w ds.now)).at result }
{
    let n = packed_len(ds, v, w);
    let at = pen.at;
    if n >= LIMIT || at >= LIMIT {
        return LIMIT;
    }
    match mode {
        Mode::Off => at + n,
        Mode::Crate | Mode::Standard => pace_packed(pen, mode, ds, v, w, n).at,
    }
}
