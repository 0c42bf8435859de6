// A glance at a frame's header: few instructions for nearly all frames of nearly all tags. Whatever it leaves unclear is
// looked at in full.
ghost use Rattle.std.specs.Prelude.{◌≡◌, ◌+◌, ◌≤◌, length};
ghost use Rattle.std.proofs.Math.Seq.{slice};
ghost use Rattle.meter.specs.Glances.{ten_of, size_by, Sorted, with_flag, Says};

use format::{Kind, Version};
use frame::body::kind_of;
use loads::read32;
use unsynch::decode_u32;

// The 2.4 frame flag for unsynchronised bytes.
const UNSYNCHRONISED: u8 = 0x02;

// What a glance tells: nothing, the end, or a whole frame with so many bytes of body, which is passed, is passed once it
// is resynchronised, or is a popularimeter.
#[derive(Drop)]
pub(crate) enum Glance {
    Unclear,
    End,
    Plain(usize),
    Flagged(usize),
    Meter(usize),
}

// A body of a kind, `size` bytes of s from `first` on. A text and a raw body are not looked through.
#[tactic(auto, using(crate::proofs::Glances::text_at))]
fn by_kind(s: &[u8], kind: Kind, first: usize, size: usize) -> Glance
    requires { first + size ≤ length s.now }
    ensures { Sorted kind size (slice first (first + size) s.now) result }
{
    match kind {
        Kind::Text if size > 0 && s[first] <= 3 => Glance::Plain(size),
        Kind::Raw => Glance::Plain(size),
        Kind::Popularimeter => Glance::Meter(size),
        _ => Glance::Unclear,
    }
}

// The same of a body that is resynchronised.
fn with_flag(g: Glance) -> Glance
    ensures { result ≡ with_flag g }
{
    match g {
        Glance::Plain(size) => Glance::Flagged(size),
        _ => Glance::Unclear,
    }
}

// The size that four bytes say: plain in 2.3, synchsafe in 2.4. Below 128 both say the same.
#[tactic(auto, using(crate::proofs::Glances::size_small))]
fn size_of(word: u32, v4: bool) -> usize
    ensures { result ≡ size_by v4 word }
{
    if word >= 0x80 && v4 {
        decode_u32(word) as usize
    } else {
        word as usize
    }
}

// A header of ten bytes at `at`, with `left` bytes after it: an ASCII id, and no flag but that for unsynchronised bytes.
#[tactic(auto, using(crate::proofs::Glances::ten_end, crate::proofs::Glances::ten_says, crate::proofs::Glances::ten_says_flagged))]
fn glance10(s: &[u8], at: usize, left: usize, v4: bool) -> Glance
    requires { at + 10 + left ≤ length s.now }
    ensures { Says (ten_of v4) (slice at (at + 10 + left) s.now) result }
{
    let id = read32(s, at);
    if id < 0x100_0000 {
        return Glance::End;
    }
    if id & 0x8080_8080 != 0 {
        return Glance::Unclear;
    }
    let size = size_of(read32(s, at + 4), v4);
    if left < size {
        return Glance::Unclear;
    }
    match s[at + 9] {
        0 => by_kind(s, kind_of(Version::Id3v24, id), at + 10, size),
        UNSYNCHRONISED if v4 => with_flag(by_kind(s, kind_of(Version::Id3v24, id), at + 10, size)),
        _ => Glance::Unclear,
    }
}

// A header of six bytes at `at`, with `left` bytes after it: an ASCII id.
#[tactic(auto, using(crate::proofs::Glances::six_end, crate::proofs::Glances::six_says))]
fn glance6(s: &[u8], at: usize, left: usize) -> Glance
    requires { at + 6 + left ≤ length s.now }
    ensures { Says Version.Id3v22 (slice at (at + 6 + left) s.now) result }
{
    let id = read32(s, at) / 0x100;
    if id < 0x1_0000 {
        return Glance::End;
    }
    if id & 0x80_8080 != 0 {
        return Glance::Unclear;
    }
    let size = (read32(s, at + 2) % 0x100_0000) as usize;
    if left < size {
        return Glance::Unclear;
    }
    by_kind(s, kind_of(Version::Id3v22, id), at + 6, size)
}

// What stands at the front of s[at..last], where a frame of the top level may begin. So near the end that a header of
// ten bytes has no room, nothing is told.
#[tactic(auto, using(crate::proofs::Glances::says_none, crate::proofs::Glances::says_from, crate::proofs::Glances::is_ten))]
pub(crate) fn glance_at(version: Version, s: &[u8], at: usize, last: usize) -> Glance
    requires { last ≤ length s.now }
    ensures { Says version (slice at last s.now) result }
{
    // Kept: checked_sub takes a box's tag 25 to 32 instructions more (docs/SPEED.md, the meter's aims).
    if last < at {
        return Glance::End;
    }
    let left = last - at;
    if left < 10 {
        return Glance::Unclear;
    }
    if version == Version::Id3v22 {
        return glance6(s, at, left - 6);
    }
    glance10(s, at, left - 10, version == Version::Id3v24)
}
