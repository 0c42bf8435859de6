// One pass over the frames of a tag that is to be changed in place: the look whether it is plain, and along with it the search
// for a user's popularimeter and for the frame with a number.
ghost use Rattle.std.specs.Prelude.{◌≡◌, ◌≤◌, length};
ghost use Rattle.std.proofs.Math.Seq.{slice};
ghost use Rattle.format.specs.Looks.{all_zero};
ghost use Rattle.raise.specs.Frames.{ended_as};
ghost use Rattle.raise.specs.declared.scanning.Scanned.{Scanned};
ghost use Rattle.raise.specs.Scans.{aimed_at, scanned_in, scanned_of, scanned_with};

use crate::frames::{Framed, frames, is_plain_end};
use crate::users::{Found, also, is_user};
use format::Version;
use format::refusals::{NOT_PLAIN, Refusal};
use walk::plain::{Seen, look_at};

// So many frames before the one that is sought, or where it lies.
#[derive(Clone, Copy)]
pub enum Aim {
    Before(usize),
    Frame(usize, usize),
}

// What was found of the user and of the number, where the last frame ends, and where the room for frames ends.
#[derive(Clone, Copy)]
pub struct Scanned {
    pub version: Version,
    pub found: Found,
    pub aim: Aim,
    pub last: usize,
    pub end: usize,
}

// What was found, after one more frame, which lies from `at` to `next`.
fn aimed(aim: Aim, at: usize, next: usize) -> Aim
    ensures { result ≡ aimed_at aim at next }
{
    match aim {
        Aim::Before(0) => Aim::Frame(at, next),
        Aim::Before(n) => Aim::Before(n - 1),
        Aim::Frame(_, _) => aim,
    }
}

// After the last frame: 40 where something was odd, or where something else than zeros follows in tag[last..end].
fn after_last(
    tag: &[u8],
    version: Version,
    found: Found,
    aim: Aim,
    last: usize,
    end: usize,
    odd: bool,
) -> Result<Scanned, Refusal>
    ensures { result ≡ ended_as odd (all_zero (slice last end tag.now)) (Ok (scanned_with version found aim last end)) }
{
    if !is_plain_end(tag, last, end, odd) {
        return Err(NOT_PLAIN);
    }
    Ok(Scanned {
        version,
        found,
        aim,
        last,
        end,
    })
}

// Goes through the frames of a tag, which lie where its header says.
fn search(tag: &[u8], user: &[u8], number: usize, framed: Framed) -> Result<Scanned, Refusal>
    requires { framed.end ≤ length tag.now }
    ensures { result ≡ scanned_in framed.version user.now number framed.begin framed.end (slice framed.begin framed.end tag.now) framed.odd }
{
    let mut at = framed.begin;
    let mut odd = framed.odd;
    let mut found = Found::None;
    let mut aim = Aim::Before(number);
    while let Some(seen) = look_at(framed.version, tag, at, framed.end)? {
        let (next, itself) = match seen {
            Seen::Frame { next, odd } => (next, odd),
            Seen::Popularimeter {
                next,
                odd,
                user: name,
                rating: _,
                counter,
            } => {
                let start = name.start + name.len + 2;
                let mine = is_user(tag, name.start, name.len, user);
                found = also(found, mine, at, start, next, counter);
                (next, odd)
            }
        };
        aim = aimed(aim, at, next);
        odd |= itself;
        at = next;
    }
    after_last(tag, framed.version, found, aim, at, framed.end, odd)
}

// What a tag has of a user and of a number: one pass over its frames.
#[tactic(auto, using(crate::proofs::OfScans::scan_refused, crate::proofs::OfScans::scan_found, crate::proofs::OfScans::scan_fits))]
pub fn scan(tag: &[u8], user: &[u8], number: usize) -> Result<Scanned, Refusal>
    ensures { result ≡ scanned_of tag.now user.now number }
{
    search(tag, user, number, frames(tag)?)
}
