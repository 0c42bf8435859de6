// The walk through frames and the subframes of chapters.
ghost use Rattle.std.specs.Prelude.{◌≡◌, ◌+◌, ◌≤◌, ◌<◌, length};
ghost use Rattle.std.proofs.Math.Seq.{slice};
ghost use Rattle.format.specs.Refusals.{passed_with};
ghost use Rattle.format.specs.Walk.{body_of, walked};
ghost use Rattle.walk.specs.Areas.{inside_in, body_in, in_area};

use crate::inside::look;
use crate::steps::{Body, step_at};
use format::refusals::Refusal;
use format::{Kind, Version};
use unsynch::{resync_in, resync_into};

// A body area[from..to] as it is shown; what lies from split on is the room.
#[cycle(body_in_shown_in_walk_in)]
fn shown_in(
    area: &mut [u8],
    from: usize,
    to: usize,
    split: usize,
    kind: Kind,
    version: Version,
    strict: bool,
    depth: u8,
) -> Result<(), Refusal>
    requires { (from ≤ to) × (to ≤ split) × (split ≤ length area.old) × (depth < 9) }
    ensures { (result, area.new) ≡ passed_with (inside_in (walked strict version (depth + 1)) kind (slice from to area.old) split area.old) }
{
    let at = look(kind, area, from, to)?;
    walk_in(area, at, to, split, version, strict, depth + 1)
}

// A body area[from..to] as it is stored: one that is resynchronised lies at the front of the room then, and the rest of the room is after it.
// Kept: a twin of body, as walk_in is of walk.
#[cycle(body_in_shown_in_walk_in)]
fn body_in(
    area: &mut [u8],
    from: usize,
    to: usize,
    split: usize,
    kind: Kind,
    resynced: bool,
    version: Version,
    strict: bool,
    depth: u8,
) -> Result<(), Refusal>
    requires { (from ≤ to) × (to ≤ split) × (split ≤ length area.old) × (depth < 9) }
    ensures { (result, area.new) ≡ passed_with (body_in resynced (walked strict version (depth + 1)) kind (slice from to area.old) split area.old) }
{
    if resynced {
        let n = resync_in(area, from, to, split)?;
        shown_in(&mut area[split..], 0, n, n, kind, version, strict, depth)
    } else {
        shown_in(area, from, to, split, kind, version, strict, depth)
    }
}

// Walks the frames of area[from..to], of what lies before split; the room is what lies from split on.
// Kept: a twin of walk: here frames and room are parts of one area (fixed memory), which can't be lent twice at once.
#[cycle(body_in_shown_in_walk_in)]
pub(crate) fn walk_in(
    area: &mut [u8],
    from: usize,
    to: usize,
    split: usize,
    version: Version,
    strict: bool,
    depth: u8,
) -> Result<(), Refusal>
    ensures { (result, area.new) ≡ passed_with (in_area strict version depth from to split area.old) }
{
    let mid = split.min(area.len());
    let end = to.min(mid);
    let mut at = from;
    while let Some(
        Body {
            kind,
            resynced,
            start,
            stop,
        },
    ) = step_at(area, at, end, version, strict, depth)?
    {
        body_in(
            area, start, stop, mid, kind, resynced, version, strict, depth,
        )?;
        at = stop;
    }
    Ok(())
}

// A body s[from..to] as it is stored: one that is resynchronised lies at the front of the room then, and the rest of the room is after it.
#[cycle(body_walk)]
pub(crate) fn body(
    room: &mut [u8],
    s: &[u8],
    from: usize,
    to: usize,
    kind: Kind,
    resynced: bool,
    version: Version,
    strict: bool,
    depth: u8,
) -> Result<(), Refusal>
    requires { (from ≤ to) × (to ≤ length s.now) × (depth < 9) }
    ensures { (result, room.new) ≡ passed_with (body_of resynced (walked strict version (depth + 1)) kind (slice from to s.now) room.old) }
{
    if resynced {
        let n = resync_into(room, s, from, to)?;
        shown_in(room, 0, n, n, kind, version, strict, depth)
    } else {
        let at = look(kind, s, from, to)?;
        walk(room, s, at, to, version, strict, depth + 1)
    }
}

// Walks the frames of s[from..to].
#[cycle(body_walk)]
pub fn walk(
    room: &mut [u8],
    s: &[u8],
    from: usize,
    to: usize,
    version: Version,
    strict: bool,
    depth: u8,
) -> Result<(), Refusal>
    ensures { (result, room.new) ≡ passed_with (walked strict version depth (slice from to s.now) room.old) }
{
    let end = to.min(s.len());
    let mut at = from;
    while let Some(
        Body {
            kind,
            resynced,
            start,
            stop,
        },
    ) = step_at(s, at, end, version, strict, depth)?
    {
        body(room, s, start, stop, kind, resynced, version, strict, depth)?;
        at = stop;
    }
    Ok(())
}
