// One frame of the top level of a plain tag replaced, removed, or added after the last, in place: the header stays, and
// padding shrinks or grows. What the answers mean stands in specs/.
#![tactic(auto)]

mod lifting;
mod locating;

ghost use Rattle.std.specs.Prelude.{◌≡◌};
ghost use Rattle.format.specs.Record.{Fits, given_content, given_rec};
ghost use Rattle.edit.specs.Edit.{replaced_of, removed_of, appended_of};
ghost use Rattle.edit.specs.Lift.{lifted_of};

use crate::lifting::lift_found;
use crate::locating::locate;
use format::refusals::{NO_SUCH_FRAME, Refusal};
use format::{Given, Heading};
use moves::shift;
use raise::scanning::Aim;
use raise::seeking::seek;
use writer::between::{Gap, put_between};

// Puts a record's frame in the place of the frame with this number. A refusal leaves all bytes as they were. It also tells
// that the heading's numbers are of their types, which a caller cannot see inside an enum.
#[tactic(auto, using(crate::proofs::Finding::replace_refused, crate::proofs::Finding::replace_missing, crate::proofs::Finding::replace_found))]
pub fn replace(
    tag: &mut [u8],
    number: usize,
    heading: Heading,
    given: &Given<'_>,
) -> Result<(), Refusal>
    ensures edited { (result, tag.new) ≡ replaced_of tag.old number (given_rec heading given.now) }
    ensures fits { Fits (given_content heading.fields given.now) }
{
    let located = locate(&tag[..], number)?;
    let Aim::Frame(from, to) = located.aim else {
        return Err(NO_SUCH_FRAME);
    };
    let gap = Gap {
        from,
        to,
        last: located.last,
        end: located.end,
    };
    put_between(tag, located.version, gap, heading, given)
}

// Takes away the frame with this number. A refusal leaves all bytes as they were.
#[tactic(auto, using(crate::proofs::Finding::remove_refused, crate::proofs::Finding::remove_missing, crate::proofs::Finding::remove_found))]
pub fn remove(tag: &mut [u8], number: usize) -> Result<(), Refusal>
    ensures { (result, tag.new) ≡ removed_of tag.old number }
{
    let located = locate(&tag[..], number)?;
    let Aim::Frame(from, to) = located.aim else {
        return Err(NO_SUCH_FRAME);
    };
    shift(tag, to, located.last, from);
    Ok(())
}

// Puts a record's frame after the last. A refusal leaves all bytes as they were. It also tells that the heading's numbers are
// of their types.
#[tactic(auto, using(crate::proofs::Finding::append_refused, crate::proofs::Finding::append_found))]
pub fn append(tag: &mut [u8], heading: Heading, given: &Given<'_>) -> Result<(), Refusal>
    ensures edited { (result, tag.new) ≡ appended_of tag.old (given_rec heading given.now) }
    ensures fits { Fits (given_content heading.fields given.now) }
{
    let located = locate(&tag[..], 0)?;
    let gap = Gap {
        from: located.last,
        to: located.last,
        last: located.last,
        end: located.end,
    };
    put_between(tag, located.version, gap, heading, given)
}

// Adds an amount to the counter of a user's popularimeter: in the counter's bytes that are there, or where these are too few in
// a frame that takes more room. A refusal leaves all bytes as they were.
#[tactic(auto, using(crate::proofs::LiftSought::lift_unsought, crate::proofs::LiftSought::lift_sought))]
pub fn lift(tag: &mut [u8], user: &[u8], amount: u64) -> Result<u64, Refusal>
    ensures { (result, tag.new) ≡ lifted_of tag.old user.now amount }
{
    let sought = seek(&tag[..], user)?;
    lift_found(tag, user, amount, sought)
}
