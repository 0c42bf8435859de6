// Text bodies: the encoding, then the text, and where it ends.
ghost use Rattle.std.specs.Prelude.{◌≡◌, ◌&&◌, eqb};
ghost use Rattle.std.proofs.Math.Seq.{slice};
ghost use Rattle.format.specs.Bytes.{pick, zero_at};
ghost use Rattle.format.specs.Text.{zero_pair_at, closing, closing_pairs, is_paired, text_end};
ghost use Rattle.format.specs.declared.Kind.{Kind};
ghost use Rattle.frame.specs.Bodies.{parsed_of};

use crate::parts::{nowhere, part, zero_at};
use format::refusals::{MISSING_FIELD, Refusal, UNKNOWN_ENCODING};
use format::{Fields, Parts, Span, Version};

// Whether both bytes of a pair are zero.
fn zero_pair(a: u8, b: u8) -> bool
    ensures { result ≡ (eqb a 0 && eqb b 0) }
{
    a == 0 && b == 0
}

// Encodings 1 and 2 go by pairs of bytes.
fn is_paired(encoding: u8) -> bool
    ensures { result ≡ is_paired encoding }
{
    encoding == 1 || encoding == 2
}

// Before the first zero pair at an even place, or at the end.
// Kept: a twin of zero_at for pairs; zero_at is a loop of its own for the meter's bar.
fn zero_pair_at(s: &[u8]) -> usize
    ensures { result ≡ zero_pair_at s.now }
{
    match s.chunks_exact(2).position(|p| zero_pair(p[0], p[1])) {
        Some(k) => 2 * k,
        None => s.len(),
    }
}

// After the last byte that is not zero, or at the end; index 0 is never tested.
fn closing_at(s: &[u8]) -> usize
    ensures { result ≡ closing s.now }
{
    match s.iter().rposition(|x| *x != 0) {
        Some(i) if i > 0 => i + 1,
        _ => s.len(),
    }
}

// After the last pair that is not zero, or at the end; the first pair is never tested.
// Kept: a twin of closing_at for pairs, and a loop of its own: `rposition` over chunks, and `for` too, take 1.6 times as long.
fn closing_pair_at(s: &[u8]) -> usize
    ensures { result ≡ closing_pairs s.now }
{
    let mut i = s.len() - s.len() % 2;
    while i > 2 {
        if !zero_pair(s[i - 2], s[i - 1]) {
            return i;
        }
        i -= 2;
    }
    s.len()
}

// Where a text of 2.2 and 2.3 ends.
fn first_end(paired: bool, s: &[u8]) -> usize
    ensures { result ≡ pick paired (zero_pair_at s.now) (zero_at s.now) }
{
    if paired { zero_pair_at(s) } else { zero_at(s) }
}

// Where a text of 2.4 ends.
fn closing_end(paired: bool, s: &[u8]) -> usize
    ensures { result ≡ pick paired (closing_pairs s.now) (closing s.now) }
{
    if paired {
        closing_pair_at(s)
    } else {
        closing_at(s)
    }
}

// How many bytes a text has that is given with what may follow it.
pub fn text_end(version: Version, encoding: u8, s: &[u8], from: usize, to: usize) -> usize
    ensures { result ≡ text_end version encoding (slice from to s.now) }
{
    let text = part(s, from, to);
    let paired = is_paired(encoding);
    match version {
        Version::Id3v22 | Version::Id3v23 => first_end(paired, text),
        Version::Id3v24 => closing_end(paired, text),
    }
}

// A text body: its encoding, and the text as the rest.
pub(crate) fn parse(version: Version, s: &[u8], from: usize, to: usize) -> Result<Parts, Refusal>
    ensures { result ≡ parsed_of version Kind.Text from (slice from to s.now) }
{
    let b = part(s, from, to);
    if b.is_empty() {
        return Err(MISSING_FIELD);
    }
    let encoding = b[0];
    if encoding > 3 {
        return Err(UNKNOWN_ENCODING);
    }
    let len = text_end(version, encoding, b, 1, b.len());
    let none = nowhere();
    Ok(Parts {
        fields: Fields::Text { encoding },
        name: none,
        names: none,
        rest: Span {
            start: from + 1,
            len,
        },
    })
}
