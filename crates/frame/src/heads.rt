// Frame headers of any edition.
ghost use Rattle.std.specs.Prelude.{◌≡◌, ◌≤◌, length, take};
ghost use Rattle.std.proofs.Math.Seq.{slice};
ghost use Rattle.format.specs.Bytes.{first};
ghost use Rattle.format.specs.Refusals.{passed};
ghost use Rattle.format.specs.Frame.{head_len, frame_checks, head_of};
ghost use Rattle.frame.specs.Headers.{id_checks};

use crate::ids::is_utf8;
use crate::parts::part;
use crate::{v2, v3, v4};
use format::numbered::head_len;
use format::refusals::{ENCRYPTED, GROUPED, ID_NOT_UTF8, Refusal, TOO_DEEP};
use format::small::has;
use format::{Head, Version};

// The deepest that a frame may lie; a frame that lies in no other has depth 1.
const DEEPEST: u8 = 8;

// The checks of an id of four bytes and of two flags, whose bits differ from edition to edition.
fn id_refusal(b: &[u8], encryption: u8, grouping: u8) -> Result<(), Refusal>
    requires { 10 ≤ length b.now }
    ensures { result ≡ passed (first (id_checks encryption grouping b.now)) }
{
    if !is_utf8(&b[..4]) {
        return Err(ID_NOT_UTF8);
    }
    if has(encryption, b[9]) {
        return Err(ENCRYPTED);
    }
    if has(grouping, b[9]) {
        return Err(GROUPED);
    }
    Ok(())
}

// The first checks in their order.
fn first_refusal(version: Version, b: &[u8], depth: u8) -> Result<(), Refusal>
    requires { head_len version ≤ length b.now }
    ensures { result ≡ passed (first (take 4 (frame_checks version depth b.now))) }
{
    if depth > DEEPEST {
        return Err(TOO_DEEP);
    }
    match version {
        Version::Id3v22 if is_utf8(&b[..3]) => Ok(()),
        Version::Id3v22 => Err(ID_NOT_UTF8),
        Version::Id3v23 => id_refusal(b, v3::ENCRYPTION, v3::GROUPING),
        Version::Id3v24 => id_refusal(b, v4::ENCRYPTION, v4::GROUPING),
    }
}

// What stands at the front of s[from..to], where a frame of this depth may begin.
pub fn decode(
    version: Version,
    s: &[u8],
    from: usize,
    to: usize,
    depth: u8,
) -> Result<Option<Head>, Refusal>
    ensures { result ≡ head_of version depth (slice from to s.now) }
{
    let b = part(s, from, to);
    if b.len() < head_len(version) || b[0] == 0 {
        return Ok(None);
    }
    first_refusal(version, b, depth)?;
    match version {
        Version::Id3v22 => v2::with_body(b),
        Version::Id3v23 => v3::with_body(b),
        Version::Id3v24 => v4::with_body(b),
    }
}
