// A record's frame put in the place of other bytes of a buffer, in place: what follows is moved along.
ghost use Rattle.std.specs.Prelude.{◌≡◌, ◌^◌, ◌<◌, length};
ghost use Rattle.format.specs.Record.{given_content, given_rec};
ghost use Rattle.format.specs.Encode.{body_bytes, stored_of, encode};
ghost use Rattle.writer.specs.Layouts.{Puttable};
ghost use Rattle.writer.specs.Between.{is_ordered, refit_of, placed_of};

use crate::frames::{measure_frame, put_frame};
use checks::record::record_check;
use checks::sizes::size_check;
use format::numbered::head_len;
use format::refusals::{NO_ROOM, Refusal};
use format::{Given, Heading, Mode, Version};
use moves::shift;

// The bytes from `from` up to `to` give way. Those after them up to `last` stay, and up to `end` there is room.
#[derive(Clone, Copy)]
pub struct Gap {
    pub from: usize,
    pub to: usize,
    pub last: usize,
    pub end: usize,
}

// Whether the places come one after the other, in a buffer of len bytes.
fn is_ordered(gap: Gap, len: usize) -> bool
    ensures { result ≡ is_ordered gap len }
{
    gap.from <= gap.to && gap.to <= gap.last && gap.last <= gap.end && gap.end <= len
}

// Puts a record's frame, whose stored body is `size` bytes, in the gap, or 20 where the room is not there.
#[tactic(auto, using(crate::proofs::Gaps::disordered, crate::proofs::Gaps::gap_full, crate::proofs::Gaps::gap_fits, crate::proofs::Gaps::gap_done))]
fn refit(
    buffer: &mut [u8],
    version: Version,
    gap: Gap,
    heading: Heading,
    given: &Given<'_>,
    size: usize,
) -> Result<(), Refusal>
    requires { let content = given_content heading.fields given.now in
        Puttable content × (size ≡ length (stored_of version Mode.Off (body_bytes content))) × (size < 2 ^ 28) }
    ensures { let whole = given_rec heading given.now in
        (result, buffer.new) ≡ refit_of gap (encode version Mode.Off whole) buffer.old }
{
    if !is_ordered(gap, buffer.len()) {
        return Err(NO_ROOM);
    }
    let from = gap.from;
    let n = head_len(version) + size;
    if (gap.end - gap.last) + (gap.to - from) < n {
        return Err(NO_ROOM);
    }
    shift(buffer, gap.to, gap.last, from + n);
    put_frame(buffer, from, version, Mode::Off, heading, given, size);
    Ok(())
}

// Puts a record's frame in a gap of a buffer, as adding writes it with mode off: refused with nothing changed, or the frame,
// what follows it, and zeros where that ends earlier than before.
#[tactic(auto, using(crate::proofs::Gaps::gap_refit, crate::proofs::Lengths::size_refusal_lem))]
pub fn put_between(
    buffer: &mut [u8],
    version: Version,
    gap: Gap,
    heading: Heading,
    given: &Given<'_>,
) -> Result<(), Refusal>
    ensures { (result, buffer.new) ≡ placed_of version gap (given_rec heading given.now) buffer.old }
{
    record_check(version, heading, given)?;
    let size = measure_frame(version, Mode::Off, heading, given);
    size_check(version, size)?;
    refit(buffer, version, gap, heading, given, size)
}
