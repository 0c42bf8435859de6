// Where a body's run of subframes begins.
ghost use Rattle.std.specs.Prelude.{◌≡◌, ◌≤◌, length};
ghost use Rattle.std.proofs.Math.Seq.{slice};
ghost use Rattle.walk.specs.Insides.{place_of, inside_at};

use format::refusals::{MISSING_FIELD, Refusal, UNKNOWN_ENCODING};
use format::{Kind, Parts};
use frame::{chapter, popularimeter, table};

// Where the run of a body begins that ends at `to` and has these parts.
#[tactic(auto, unfolding(crate::specs::Insides::place_of))]
pub(crate) fn place(kind: Kind, parts: Parts, to: usize) -> usize
    ensures { result ≡ place_of kind parts to }
{
    match kind {
        Kind::Chapter | Kind::Contents => parts.rest.start,
        Kind::Text | Kind::Popularimeter | Kind::Table | Kind::Raw => to,
    }
}

// A text, of which only the encoding is looked at.
fn text(s: &[u8], from: usize, to: usize) -> Result<usize, Refusal>
    requires { (from ≤ to) × (to ≤ length s.now) }
    ensures { result ≡ inside_at Kind.Text from (slice from to s.now) }
{
    match s[from..to].first() {
        None => Err(MISSING_FIELD),
        Some(encoding) if *encoding > 3 => Err(UNKNOWN_ENCODING),
        Some(_) => Ok(to),
    }
}

// What stands in a body s[from..to]. A text and a raw body are not looked through.
pub(crate) fn look(kind: Kind, s: &[u8], from: usize, to: usize) -> Result<usize, Refusal>
    requires { (from ≤ to) × (to ≤ length s.now) }
    ensures { result ≡ inside_at kind from (slice from to s.now) }
{
    let parts = match kind {
        Kind::Text => return text(s, from, to),
        Kind::Popularimeter => popularimeter::parse(s, from, to)?,
        Kind::Table => table::parse(s, from, to)?,
        Kind::Chapter => chapter::parse_chapter(s, from, to)?,
        Kind::Contents => chapter::parse_contents(s, from, to)?,
        Kind::Raw => return Ok(to),
    };
    Ok(place(kind, parts, to))
}
