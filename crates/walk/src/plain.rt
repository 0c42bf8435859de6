// The look at frames that changes nothing and has no work buffer: what reading is refused with, 40 at once where it would
// resynchronise, and whether all is plain.
ghost use Rattle.std.specs.Prelude.{◌≡◌, ◌+◌, ◌≤◌, ◌<◌, Ok, Some, length};
ghost use Rattle.std.proofs.Math.Seq.{slice};
ghost use Rattle.format.specs.Looks.{look_at};
ghost use Rattle.walk.specs.Plain.{ahead_of, inside_look, counted_by, seen_of};

use crate::choices::{is_resynced, shown_kind};
use crate::inside::look;
use format::refusals::{NOT_PLAIN, Refusal};
use format::{Fields, Kind, Parts, Span, Version};
use frame::heads::decode;
use frame::popularimeter;

// A body that lies ahead of a look, from start to stop, of a frame that is odd itself or not.
#[derive(Clone, Copy)]
pub(crate) struct Ahead {
    pub(crate) kind: Kind,
    pub(crate) odd: bool,
    pub(crate) start: usize,
    pub(crate) stop: usize,
}

// What is seen of a frame of the top level: it ends at `next`, and it or something in it is odd or not. A popularimeter's
// counter lies from two bytes after its user up to `next`.
#[derive(Clone, Copy)]
pub enum Seen {
    Frame {
        next: usize,
        odd: bool,
    },
    Popularimeter {
        next: usize,
        odd: bool,
        user: Span,
        rating: u8,
        counter: u64,
    },
}

// What lies ahead at `at`, of s[at..end].
// Kept: step_at refuses other things at the same header (`step_at` and `ahead_of` of specs/).
#[tactic(auto, unfolding(crate::specs::Plain::ahead_of, crate::specs::Plain::on_ahead))]
fn look_ahead(
    s: &[u8],
    at: usize,
    end: usize,
    version: Version,
    depth: u8,
) -> Result<Option<Ahead>, Refusal>
    requires { end ≤ length s.now }
    ensures { result ≡ ahead_of version depth at (slice at end s.now) }
{
    let Some(head) = decode(version, s, at, end, depth)? else {
        return Ok(None);
    };
    if is_resynced(head.compressed, head.flagged) {
        return Err(NOT_PLAIN);
    }
    let start = at + head.start;
    Ok(Some(Ahead {
        kind: shown_kind(version, head.id, head.compressed),
        odd: head.compressed || head.flagged || head.short,
        start,
        stop: start + head.len,
    }))
}

// Looks into a body s[from..to], and through its run of subframes.
#[cycle(look_body_look_run)]
fn look_body(
    s: &[u8],
    from: usize,
    to: usize,
    kind: Kind,
    version: Version,
    depth: u8,
) -> Result<bool, Refusal>
    requires { (from ≤ to) × (to ≤ length s.now) × (0 < depth) × (depth < 9) }
    ensures { result ≡ inside_look (look_at version (depth + 1)) kind (slice from to s.now) }
{
    let at = look(kind, s, from, to)?;
    if to <= at {
        return Ok(true);
    }
    look_run(s, at, to, version, depth + 1)
}

// Looks through the frames of a run s[from..to] of subframes.
#[cycle(look_body_look_run)]
fn look_run(s: &[u8], from: usize, to: usize, version: Version, depth: u8) -> Result<bool, Refusal>
    requires { 1 < depth }
    ensures { result ≡ look_at version depth (slice from to s.now) }
{
    let end = to.min(s.len());
    let mut at = from;
    let mut odd = false;
    while let Some(ahead) = look_ahead(s, at, end, version, depth)? {
        let plain = look_body(s, ahead.start, ahead.stop, ahead.kind, version, depth)?;
        odd |= ahead.odd | !plain;
        at = ahead.stop;
    }
    Ok(!odd)
}

// What is seen of a popularimeter, by the parts of its body.
fn counted(parts: Parts, next: usize, odd: bool) -> Seen
    ensures { Ok (Some result) ≡ counted_by parts.fields parts next odd }
{
    match parts.fields {
        Fields::Popularimeter { rating, counter } => Seen::Popularimeter {
            next,
            odd,
            user: parts.name,
            rating,
            counter,
        },
        _ => Seen::Frame { next, odd },
    }
}

// Looks at the frame of the top level at a place of s, whose frames end at `end`.
pub fn look_at(version: Version, s: &[u8], at: usize, end: usize) -> Result<Option<Seen>, Refusal>
    ensures { result ≡ seen_of version at (slice at end s.now) }
{
    let Some(
        Ahead {
            kind,
            odd,
            start,
            stop,
        },
    ) = look_ahead(s, at, end.min(s.len()), version, 1)?
    else {
        return Ok(None);
    };
    if kind == Kind::Popularimeter {
        return Ok(Some(counted(popularimeter::parse(s, start, stop)?, stop, odd)));
    }
    let plain = look_body(s, start, stop, kind, version, 1)?;
    Ok(Some(Seen::Frame {
        next: stop,
        odd: odd || !plain,
    }))
}
