// Names before they are written: the user, the element id and the children.
ghost use Rattle.std.specs.Prelude.{◌≡◌, false, [], ◌∷◌};
ghost use Rattle.format.specs.Bytes.{first};
ghost use Rattle.format.specs.Record.{contents};
ghost use Rattle.format.specs.Encode.{zero_check, last_or, children_check};
ghost use Rattle.format.specs.Refusals.{passed};

use format::refusals::{Refusal, WRONG_CHILDREN, ZERO_IN_NAME};
use format::small::zeros_in;
use frame::parts::zero_at;

// 27: the user or the element id holds a zero.
pub(crate) fn name_check(name: &[u8]) -> Result<(), Refusal>
    ensures { result ≡ passed (zero_check name.now) }
{
    if zero_at(name) != name.len() {
        return Err(ZERO_IN_NAME);
    }
    Ok(())
}

// The last byte, or 0 where there is none.
#[tactic(auto, using(crate::proofs::Closed::last_is))]
fn last_byte(children: &[u8]) -> u8
    ensures { result ≡ last_or 0 children.now }
{
    children.last().copied().unwrap_or(0)
}

// 28: over 255 children, or some are given and the last is not closed. Nothing else of a record decides it.
fn children_check(children: &[u8]) -> Result<(), Refusal>
    ensures { result ≡ passed (children_check (contents [] false false children.now [])) }
{
    if 0 < last_byte(children) || 255 < zeros_in(children) {
        return Err(WRONG_CHILDREN);
    }
    Ok(())
}

// 27 and 28, of a table of contents.
#[tactic(auto, using(crate::proofs::Passed::stop, crate::proofs::Passed::next, crate::proofs::Firsts::only))]
pub(crate) fn names_check(name: &[u8], children: &[u8]) -> Result<(), Refusal>
    ensures { result ≡ passed (first (zero_check name.now ∷ children_check (contents [] false false children.now []) ∷ [])) }
{
    name_check(name)?;
    children_check(children)
}
