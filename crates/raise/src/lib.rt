// Raising a counter in place: found by its user among the popularimeters of the top level of a plain tag. What the answer
// means stands in specs/.
#![tactic(auto)]

pub mod counter;
pub mod frames;
pub mod scanning;
pub mod seeking;
pub mod users;

ghost use Rattle.std.specs.Prelude.{◌≡◌};
ghost use Rattle.raise.specs.Raise.{raised_of};

use crate::counter::raise_at;
use crate::seeking::seek;
use format::refusals::Refusal;

// Adds an amount to the counter of a user's popularimeter at the top level of a plain tag, in the counter's bytes that are
// there. What follows the tag may be sound. A refusal leaves all bytes as they were.
#[tactic(auto, using(crate::proofs::Along::raise_refused, crate::proofs::Along::raise_found))]
pub fn raise(tag: &mut [u8], user: &[u8], amount: u64) -> Result<u64, Refusal>
    ensures { (result, tag.new) ≡ raised_of tag.old user.now amount }
{
    let sought = seek(&tag[..], user)?;
    raise_at(tag, sought.start, sought.stop, sought.counter, amount)
}
