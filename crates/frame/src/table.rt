// Bodies of lookup tables, and the references that are packed in them, highest bit first.
ghost use Rattle.std.specs.Prelude.{◌≡◌, Some, None, ◌&&◌, ◌+◌, ◌-◌, ◌*◌, ◌/◌, ◌^◌, ◌≤◌, ◌<◌, min, length, take, drop};
ghost use Rattle.std.proofs.Math.Seq.{slice};
ghost use Rattle.std.proofs.lemmas.List.Edits.{sets};
ghost use Rattle.format.specs.Bytes.{pick, first};
ghost use Rattle.format.specs.Numbers.{onto};
ghost use Rattle.format.specs.Refusals.{passed};
ghost use Rattle.format.specs.Table.{is_width, width_checks, spread, gathered};
ghost use Rattle.format.specs.declared.Version.{Version};
ghost use Rattle.format.specs.declared.Kind.{Kind};
ghost use Rattle.frame.specs.Bodies.{parsed_of};
ghost use Rattle.frame.specs.References.{unpack_of};

use crate::parts::{nowhere, part};
use format::refusals::{MISSING_FIELD, NO_ROOM, Refusal, WIDTHS_NOT_IN_FOURS, WRONG_WIDTH};
use format::{Fields, Parts, Span};
use loads::{read_few, read64};

// Whether a deviation may have v bits.
fn is_width(v: u8) -> bool
    ensures { result ≡ is_width v }
{
    1 <= v && v <= 32
}

// How many bits a reference has, where the widths are two.
fn sum_of(v: u8, w: u8) -> Option<usize>
    ensures { result ≡ pick (is_width v && is_width w) (Some (v + w)) None }
{
    if is_width(v) && is_width(w) {
        return Some(usize::from(v) + usize::from(w));
    }
    None
}

// What the widths are refused with. No two of 1 to 32 bits have more than 64.
pub fn widths_refusal(v: u8, w: u8) -> Result<(), Refusal>
    ensures { result ≡ passed (first (width_checks v w)) }
{
    let sum = sum_of(v, w).ok_or(WRONG_WIDTH)?;
    if sum % 4 != 0 {
        return Err(WIDTHS_NOT_IN_FOURS);
    }
    Ok(())
}

// A table's body, in any edition: its steps and widths, and the packed references as the rest.
pub fn parse(s: &[u8], from: usize, to: usize) -> Result<Parts, Refusal>
    ensures { (v : Version) → result ≡ parsed_of v Kind.Table from (slice from to s.now) }
{
    let b = part(s, from, to);
    if b.len() < 10 {
        return Err(MISSING_FIELD);
    }
    let bits_for_bytes = b[8];
    let bits_for_millis = b[9];
    widths_refusal(bits_for_bytes, bits_for_millis)?;
    let none = nowhere();
    Ok(Parts {
        fields: Fields::Table {
            frames: read_few(b, 0, 2, 2) as u16,
            bytes: read_few(b, 2, 5, 3) as u32,
            millis: read_few(b, 5, 8, 3) as u32,
            bits_for_bytes,
            bits_for_millis,
        },
        name: none,
        names: none,
        rest: Span {
            start: from + 10,
            len: b.len() - 10,
        },
    })
}

// The largest number, and what times eight is more.
const LARGEST: usize = 0xFFFF_FFFF_FFFF_FFFF;

const TOO_MANY: usize = 0x2000_0000_0000_0000;

// How many references of sum bits fit whole in n bytes, or the largest number where there are more.
fn fitting(n: usize, sum: usize) -> usize
    requires { (0 < sum) × (sum ≤ 64) }
    ensures { result ≡ min (8 * n / sum) (2 ^ 64 - 1) }
{
    let eights = n / sum;
    if eights >= TOO_MANY {
        return LARGEST;
    }
    eights * 8 + n % sum * 8 / sum
}

// The number of w bits that begins r bits into the byte at k, and ends within b.
fn bits_at(b: &[u8], k: usize, r: usize, w: u8) -> u32
    requires { (r < 8) × (w ≤ 32) × (k * 8 + r + w ≤ 8 * length b.now) }
    ensures { result ≡ onto 2 0 (take w (drop (k * 8 + r) (spread 8 8 b.now))) }
{
    let end = r + usize::from(w);
    let n = (end + 7) / 8;
    let bytes = read64(b, k, k + n);
    let mask = (1u64 << w) - 1;
    ((bytes >> (n * 8 - end)) & mask) as u32
}

// Puts the first n references, two numbers each, to the front of a buffer, and answers how many numbers these are.
fn put_pairs(out: &mut [u32], v: u8, w: u8, b: &[u8], n: usize) -> usize
    requires { (v ≤ 32) × (w ≤ 32) × (n * 2 ≤ length out.old) × (n * (v + w) ≤ 8 * length b.now) }
    ensures { (result ≡ n * 2) × (out.new ≡ sets out.old 0 (gathered (n * 2) v w (spread 8 8 b.now))) }
{
    let mut width = v;
    let mut other = w;
    let mut k: usize = 0;
    let mut r: usize = 0;
    for x in &mut out[..n * 2] {
        *x = bits_at(b, k, r, width);
        let end = r + usize::from(width);
        k += end / 8;
        r = end % 8;
        let next = other;
        other = width;
        width = next;
    }
    n * 2
}

// All deviations that the packed bytes of a part hold, two by two, to the front of a buffer that has the room.
pub fn unpack(
    out: &mut [u32],
    v: u8,
    w: u8,
    s: &[u8],
    from: usize,
    to: usize,
) -> Result<usize, Refusal>
    ensures { (result, out.new) ≡ unpack_of v w (slice from to s.now) out.old }
{
    let bits = sum_of(v, w).ok_or(WRONG_WIDTH)?;
    let b = part(s, from, to);
    let n = fitting(b.len(), bits);
    if n > out.len() / 2 {
        return Err(NO_ROOM);
    }
    Ok(put_pairs(out, v, w, b, n))
}
