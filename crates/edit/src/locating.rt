// The frame with a number in a plain tag.
ghost use Rattle.std.specs.Prelude.{◌≡◌};
ghost use Rattle.edit.specs.Locating.{located_of};

use format::Version;
use format::refusals::Refusal;
use raise::scanning::{Aim, scan};

// What was found of a frame with a number, where the last frame ends, and where the room for frames ends.
#[derive(Clone, Copy)]
pub(crate) struct Located {
    pub(crate) version: Version,
    pub(crate) aim: Aim,
    pub(crate) last: usize,
    pub(crate) end: usize,
}

// Where the frame with a number lies in a plain tag, and where its frames end.
#[tactic(auto, using(crate::proofs::Finding::locate_refused, crate::proofs::Finding::locate_found))]
pub(crate) fn locate(tag: &[u8], number: usize) -> Result<Located, Refusal>
    ensures { result ≡ located_of tag.now number }
{
    let scanned = scan(tag, &[], number)?;
    Ok(Located {
        version: scanned.version,
        aim: scanned.aim,
        last: scanned.last,
        end: scanned.end,
    })
}
