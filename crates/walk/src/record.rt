// One frame of the top level as a record.
ghost use Rattle.std.specs.Prelude.{◌≡◌, ◌≤◌, ◌||◌, length};
ghost use Rattle.format.specs.Refusals.{passed_with};
ghost use Rattle.format.specs.Walk.{record_of};
ghost use Rattle.walk.specs.Sources.{source_of, frame_in};
ghost use Rattle.walk.specs.Openings.{front_of, ready_of, ran_of, shown_at, entered_of};

use crate::choices::{is_resynced, shown_kind};
use crate::inside::place;
use crate::run::{walk, walk_in};
use format::refusals::Refusal;
use format::{Heading, Kind, Parts, Record, Span, Version};
use frame::body::parse;
use frame::heads::decode;
use unsynch::resync_into;

// The bytes that frames lie in: the work buffer or the tag.
pub fn source<'a>(in_work: bool, work: &'a [u8], tag: &'a [u8]) -> &'a [u8]
    ensures { result.now ≡ source_of in_work work.now tag.now }
{
    if in_work { work } else { tag }
}

// The record of a frame at a place, counted from the first frame byte.
fn record_of(
    id: u32,
    short: bool,
    compressed: bool,
    at: usize,
    in_work: bool,
    body: Span,
    parts: Parts,
) -> Record
    ensures { result ≡ record_of id short compressed at in_work body.start body.len parts }
{
    Record {
        heading: Heading {
            id,
            short,
            compressed,
            fields: parts.fields,
        },
        at,
        in_work,
        body,
        name: parts.name,
        names: parts.names,
        rest: parts.rest,
    }
}

// A body of the frames' bytes, resynchronised to the front of the room. Frames in the work buffer have no room.
fn resync_front(
    work: &mut [u8],
    tag: &[u8],
    in_work: bool,
    from: usize,
    to: usize,
) -> Result<usize, Refusal>
    ensures { (result, work.new) ≡ front_of in_work from to tag.now work.old }
{
    if in_work {
        resync_into(&mut [], work, from, to)
    } else {
        resync_into(work, tag, from, to)
    }
}

// Where a body lies as it is shown: one that is resynchronised lies at the front of the work buffer then.
#[tactic(auto, unfolding(crate::specs::Openings::ready_of))]
fn ready(
    work: &mut [u8],
    tag: &[u8],
    in_work: bool,
    from: usize,
    to: usize,
    resynced: bool,
) -> Result<(usize, usize), Refusal>
    ensures { (result, work.new) ≡ ready_of in_work resynced from to tag.now work.old }
{
    if resynced {
        Ok((0, resync_front(work, tag, in_work, from, to)?))
    } else {
        Ok((from, to))
    }
}

// The run of subframes of a body as it is shown.
fn run_inside(
    work: &mut [u8],
    tag: &[u8],
    in_work: bool,
    resynced: bool,
    run: usize,
    to: usize,
    version: Version,
) -> Result<(), Refusal>
    ensures { (result, work.new) ≡ passed_with (ran_of in_work resynced version run to tag.now work.old) }
{
    if to <= run {
        return Ok(());
    }
    if in_work {
        return walk(&mut [], work, run, to, version, false, 2);
    }
    if resynced {
        return walk_in(work, run, to, to, version, false, 2);
    }
    walk(work, tag, run, to, version, false, 2)
}

// A body as it is shown: its parts, and its run.
fn shown_body(
    work: &mut [u8],
    tag: &[u8],
    in_work: bool,
    resynced: bool,
    from: usize,
    to: usize,
    version: Version,
    kind: Kind,
) -> Result<(Span, Parts), Refusal>
    requires { (from ≤ to) × (to ≤ length (source_of (in_work || resynced) work.old tag.now)) }
    ensures { (result, work.new) ≡ shown_at in_work resynced version kind from to tag.now work.old }
{
    let parts = parse(
        version,
        kind,
        source(in_work || resynced, work, tag),
        from,
        to,
    )?;
    run_inside(
        work,
        tag,
        in_work,
        resynced,
        place(kind, parts, to),
        to,
        version,
    )?;
    Ok((
        Span {
            start: from,
            len: to - from,
        },
        parts,
    ))
}

// A body s[from..to] of the frames' bytes, which is resynchronised first where it has to be.
fn enter(
    work: &mut [u8],
    tag: &[u8],
    in_work: bool,
    from: usize,
    to: usize,
    version: Version,
    kind: Kind,
    resynced: bool,
) -> Result<(Span, Parts), Refusal>
    requires { (from ≤ to) × (to ≤ length (source_of in_work work.old tag.now)) }
    ensures { (result, work.new) ≡ entered_of in_work resynced version kind from to tag.now work.old }
{
    let (start, stop) = ready(work, tag, in_work, from, to, resynced)?;
    shown_body(work, tag, in_work, resynced, start, stop, version, kind)
}

// The frame at a place of the tag's frames or, where in_work says so, of those in the work buffer, which have no room. They begin at `begin` and end at `end`.
pub fn frame_at(
    work: &mut [u8],
    tag: &[u8],
    version: Version,
    in_work: bool,
    begin: usize,
    at: usize,
    end: usize,
) -> Result<Option<(Record, usize)>, Refusal>
    ensures { (result, work.new) ≡ frame_in version in_work begin at end tag.now work.old }
{
    let Some(head) = decode(version, source(in_work, work, tag), at, end, 1)? else {
        return Ok(None);
    };
    let kind = shown_kind(version, head.id, head.compressed);
    let resynced = is_resynced(head.compressed, head.flagged);
    let first = at + head.start;
    let next = first + head.len;
    let (body, parts) = enter(work, tag, in_work, first, next, version, kind, resynced)?;
    let record = record_of(
        head.id,
        head.short,
        head.compressed,
        at.saturating_sub(begin),
        resynced || in_work,
        body,
        parts,
    );
    Ok(Some((record, next)))
}
