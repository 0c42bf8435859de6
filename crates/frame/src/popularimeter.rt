// Popularimeter bodies: user, zero, rating, counter.
ghost use Rattle.std.specs.Prelude.{◌≡◌, ◌≤◌, length};
ghost use Rattle.std.proofs.Math.Seq.{slice};
ghost use Rattle.format.specs.declared.Version.{Version};
ghost use Rattle.format.specs.declared.Kind.{Kind};
ghost use Rattle.frame.specs.Bodies.{Begins, parsed_of};

use crate::parts::{nowhere, part, zero_at};
use format::refusals::{COUNTER_TOO_LARGE, MISSING_FIELD, Refusal};
use format::{Fields, Parts, Span};
use loads::read64;

// Where the counter s[from..to] begins to count: zeros in front of its last eight bytes say nothing. More than eight bytes
// are left only where the first of them is not zero.
#[tactic(auto, using(crate::proofs::Counters::skip, crate::proofs::Counters::begins_large, crate::proofs::Counters::begins_last))]
fn after_zeros(s: &[u8], from: usize, to: usize) -> usize
    requires { (from ≤ to) × (to ≤ length s.now) }
    ensures { Begins from to s.now result }
{
    // Kept: with position the meter misses 700 in 2.2 off, as in `zero_at`.
    let mut i = from;
    while 8 < to - i && s[i] == 0 {
        i += 1;
    }
    i
}

// A popularimeter's body, in any edition: the user as its name, rating and counter.
pub fn parse(s: &[u8], from: usize, to: usize) -> Result<Parts, Refusal>
    ensures { (v : Version) → result ≡ parsed_of v Kind.Popularimeter from (slice from to s.now) }
{
    let b = part(s, from, to);
    let len = zero_at(b);
    if b.len() <= len + 1 {
        return Err(MISSING_FIELD);
    }
    let rating = b[len + 1];
    let start = from + len + 2;
    let end = from + b.len();
    let first = after_zeros(s, start, end);
    if 8 < end - first {
        return Err(COUNTER_TOO_LARGE);
    }
    let none = nowhere();
    Ok(Parts {
        fields: Fields::Popularimeter {
            rating,
            counter: read64(s, first, end),
        },
        name: Span { start: from, len },
        names: none,
        rest: none,
    })
}
