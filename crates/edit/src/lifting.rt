// A counter raised in its bytes, or where these are too few in a frame that takes more room.
ghost use Rattle.std.specs.Prelude.{◌≡◌};
ghost use Rattle.writer.specs.Between.{placed_of};
ghost use Rattle.raise.specs.Promises.{counted};
ghost use Rattle.edit.specs.Lift.{meter_id, counts_in};
ghost use Rattle.edit.specs.Lifting.{byte_before, outgrown_at, lifted_at};

use format::refusals::{COUNTER_TOO_SHORT, Refusal};
use format::{Fields, Given, Heading, Version};
use raise::counter::raise_at;
use raise::frames::frames;
use raise::seeking::Sought;
use writer::between::{Gap, put_between};

// The ids of a popularimeter, in edition 2.2 and in the later ones.
const POP: u32 = 0x50_4F50;

const POPM: u32 = 0x504F_504D;

// The id of a popularimeter in an edition.
fn meter_id(version: Version) -> u32
    ensures { result ≡ meter_id version }
{
    match version {
        Version::Id3v22 => POP,
        Version::Id3v23 | Version::Id3v24 => POPM,
    }
}

// The byte before a place, 0 where there is none.
fn byte_before(tag: &[u8], at: usize) -> u8
    ensures { result ≡ byte_before tag.now at }
{
    at.checked_sub(1)
        .and_then(|i| tag.get(i))
        .copied()
        .unwrap_or(0)
}

// Puts a popularimeter of this user in a gap.
fn recount(
    tag: &mut [u8],
    version: Version,
    gap: Gap,
    user: &[u8],
    rating: u8,
    counter: u64,
) -> Result<u64, Refusal>
    ensures { (result, tag.new) ≡ counts_in counter (placed_of version gap (counted (meter_id version) user.now rating counter) tag.old) }
{
    let heading = Heading {
        id: meter_id(version),
        short: false,
        compressed: false,
        fields: Fields::Popularimeter { rating, counter },
    };
    let given = Given {
        name: user,
        names: &[],
        rest: &[],
        deviations: &[],
    };
    put_between(tag, version, gap, heading, &given)?;
    Ok(counter)
}

// The popularimeter that was found, in a frame of its own length with this counter.
#[tactic(auto, using(crate::proofs::LiftSteps::grow_refused, crate::proofs::LiftSteps::grow_put))]
fn outgrow(tag: &mut [u8], user: &[u8], found: Sought, counter: u64) -> Result<u64, Refusal>
    ensures { (result, tag.new) ≡ outgrown_at found.begin found.start found.stop found.last user.now counter tag.old }
{
    let framed = frames(&tag[..])?;
    let rating = byte_before(&tag[..], found.start);
    let gap = Gap {
        from: found.begin,
        to: found.stop,
        last: found.last,
        end: framed.end,
    };
    recount(tag, framed.version, gap, user, rating, counter)
}

// Adds the amount to the counter that was found.
pub(crate) fn lift_found(
    tag: &mut [u8],
    user: &[u8],
    amount: u64,
    found: Sought,
) -> Result<u64, Refusal>
    ensures { (result, tag.new) ≡ lifted_at found.begin found.start found.stop found.counter found.last user.now amount tag.old }
{
    match raise_at(tag, found.start, found.stop, found.counter, amount) {
        Ok(value) => Ok(value),
        Err(k) if k == COUNTER_TOO_SHORT => outgrow(tag, user, found, found.counter + amount),
        Err(k) => Err(k),
    }
}
