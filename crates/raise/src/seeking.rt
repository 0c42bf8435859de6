// The one popularimeter of a user in a plain tag.
ghost use Rattle.std.specs.Prelude.{◌≡◌};
ghost use Rattle.raise.specs.Seeks.{sought_by, sought_of};

use crate::scanning::scan;
use crate::users::Found;
use format::refusals::{Refusal, USER_ABSENT, USER_TWICE};

// The one counter of a user, which lies from start up to stop. Its frame begins at `begin` and ends with the counter; the last
// frame ends at `last`.
#[derive(Clone, Copy)]
pub struct Sought {
    pub begin: usize,
    pub start: usize,
    pub stop: usize,
    pub counter: u64,
    pub last: usize,
}

// What a search through all frames of a plain tag comes to, the last of which ends at `last`: 41, 42, or the one.
fn one_of(found: Found, last: usize) -> Result<Sought, Refusal>
    ensures { result ≡ sought_by found last }
{
    match found {
        Found::None => Err(USER_ABSENT),
        Found::One {
            begin,
            start,
            stop,
            counter,
        } => Ok(Sought {
            begin,
            start,
            stop,
            counter,
            last,
        }),
        Found::Many => Err(USER_TWICE),
    }
}

// The counter of a user's one popularimeter at the top level of a plain tag, or why there is none.
#[tactic(auto, using(crate::proofs::OfScans::seek_refused, crate::proofs::OfScans::seek_found))]
pub fn seek(tag: &[u8], user: &[u8]) -> Result<Sought, Refusal>
    ensures { result ≡ sought_of tag.now user.now }
{
    let scanned = scan(tag, user, 0)?;
    one_of(scanned.found, scanned.last)
}
