// One frame of the top level, by what a meter needs of it.
ghost use Rattle.std.specs.Prelude.{◌≡◌, ℕ, true, false};
ghost use Rattle.std.proofs.Math.Seq.{slice};
ghost use Rattle.format.specs.Unsynch.{resynchronised};
ghost use Rattle.format.specs.Walk.{record_of};
ghost use Rattle.walk.specs.Passing.{read_as, front_as, pass_of, pass_in};

use crate::choices::{is_resynced, shown_kind};
use crate::run::body;
use format::refusals::Refusal;
use format::{Fields, Kind, Parts, Span, Version};
use frame::body::kind_of;
use frame::heads::decode;
use frame::popularimeter;
use unsynch::resync_into;

// A frame to pass over, or a whole popularimeter. `next` is where the next frame begins, and `packed` says that a frame is
// compressed under a popularimeter's id. The user lies in the work buffer where `in_work` says so, and in the tag otherwise.
#[derive(Clone, Copy)]
pub enum Met {
    Passed {
        next: usize,
        short: bool,
        packed: bool,
    },
    Popularimeter {
        next: usize,
        in_work: bool,
        user: Span,
        rating: u8,
        counter: u64,
    },
}

// The popularimeter whose body was read so, or why it is none. It is passed over where it is short.
pub fn read_as(
    parsed: Result<Parts, Refusal>,
    next: usize,
    short: bool,
    in_work: bool,
) -> Result<Option<Met>, Refusal>
    ensures { (v : Version) (id place from len : ℕ) → result ≡ read_as v parsed (record_of id short false place in_work from len) next }
{
    let parts = parsed?;
    Ok(Some(match parts.fields {
        Fields::Popularimeter { rating, counter } if !short => Met::Popularimeter {
            next,
            in_work,
            user: parts.name,
            rating,
            counter,
        },
        _ => Met::Passed {
            next,
            short,
            packed: false,
        },
    }))
}

// The popularimeter whose body s[first..next] is resynchronised to the front of the room.
fn flagged(
    room: &mut [u8],
    s: &[u8],
    first: usize,
    next: usize,
    short: bool,
) -> Result<Option<Met>, Refusal>
    ensures { (v : Version) (id place from len : ℕ) → (result, room.new) ≡ front_as v (resynchronised (slice first next s.now)) (record_of id short false place true from len) next room.old }
{
    let n = resync_into(room, s, first, next)?;
    read_as(popularimeter::parse(room, 0, n), next, short, true)
}

// The frame at a place of s, whose frames end at `end`.
fn pass_in(
    room: &mut [u8],
    s: &[u8],
    version: Version,
    in_work: bool,
    at: usize,
    end: usize,
) -> Result<Option<Met>, Refusal>
    ensures { (begin : ℕ) → (result, room.new) ≡ pass_of version in_work begin at (slice at end s.now) room.old }
{
    let Some(head) = decode(version, s, at, end, 1)? else {
        return Ok(None);
    };
    let first = at + head.start;
    let next = first + head.len;
    let kind = shown_kind(version, head.id, head.compressed);
    let resynced = is_resynced(head.compressed, head.flagged);
    if kind == Kind::Popularimeter {
        if resynced {
            return flagged(room, s, first, next, head.short);
        }
        return read_as(
            popularimeter::parse(s, first, next),
            next,
            head.short,
            in_work,
        );
    }
    body(room, s, first, next, kind, resynced, version, false, 1)?;
    Ok(Some(Met::Passed {
        next,
        short: head.short,
        packed: head.compressed && kind_of(version, head.id) == Kind::Popularimeter,
    }))
}

// The frame at a place of the tag's frames or, where in_work says so, of those in the work buffer, which have no room. They end at `end`.
pub fn pass_at(
    work: &mut [u8],
    tag: &[u8],
    version: Version,
    in_work: bool,
    at: usize,
    end: usize,
) -> Result<Option<Met>, Refusal>
    ensures { (begin : ℕ) → (result, work.new) ≡ pass_in version in_work begin at end tag.now work.old }
{
    if in_work {
        return pass_in(&mut [], work, version, true, at, end);
    }
    pass_in(work, tag, version, false, at, end)
}
