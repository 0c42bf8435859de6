// One step of a walk.
ghost use Rattle.std.specs.Prelude.{◌≡◌, ◌-◌, ◌≤◌, not, ◌&&◌, eqb, length};
ghost use Rattle.format.specs.Bytes.{pick};
ghost use Rattle.format.specs.Refusals.{passed};
ghost use Rattle.std.proofs.Math.Seq.{slice};
ghost use Rattle.walk.specs.Steps.{step_at};

use crate::choices::{is_resynced, is_unfit, shown_kind};
use format::refusals::{Refusal, WRONG_RUN};
use format::{Kind, Version};
use frame::heads::decode;

// A body that a walk meets, from start to stop.
#[derive(Clone, Copy)]
pub(crate) struct Body {
    pub(crate) kind: Kind,
    pub(crate) resynced: bool,
    pub(crate) start: usize,
    pub(crate) stop: usize,
}

// What is said of bytes from `at` to `end` at which no frame begins: a writer wants none left over.
fn left_over(strict: bool, at: usize, end: usize) -> Result<(), Refusal>
    ensures { result ≡ passed (pick (strict && not (eqb (end - at) 0)) 29 0) }
{
    if strict && at < end {
        return Err(WRONG_RUN);
    }
    Ok(())
}

// What a walk meets at `at`, of s[at..end].
#[tactic(auto, unfolding(crate::specs::Steps::step_at, crate::specs::Steps::step_on))]
pub(crate) fn step_at(
    s: &[u8],
    at: usize,
    end: usize,
    version: Version,
    strict: bool,
    depth: u8,
) -> Result<Option<Body>, Refusal>
    requires { end ≤ length s.now }
    ensures { result ≡ step_at strict version depth at (slice at end s.now) }
{
    let Some(head) = decode(version, s, at, end, depth)? else {
        left_over(strict, at, end)?;
        return Ok(None);
    };
    if is_unfit(strict, head.short, head.flagged) {
        return Err(WRONG_RUN);
    }
    let start = at + head.start;
    Ok(Some(Body {
        kind: shown_kind(version, head.id, head.compressed),
        resynced: is_resynced(head.compressed, head.flagged),
        start,
        stop: start + head.len,
    }))
}
