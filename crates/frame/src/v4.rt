// Frame headers of ID3v2.4: four bytes of id, four of synchsafe size, two of flags.
ghost use Rattle.std.specs.Prelude.{◌≡◌, ℕ, ◌≤◌, length};
ghost use Rattle.format.specs.Frame.{frame_size, head_of};
ghost use Rattle.format.specs.declared.Version.{Version};
ghost use Rattle.frame.specs.Headers.{Begun};

use crate::fields::{found, length_bytes};
use format::Head;
use format::refusals::{MISSING_BYTES, Refusal};
use format::small::has;
use loads::read32;
use unsynch::decode_u32;

// The bits of the low byte of the flags.
pub(crate) const GROUPING: u8 = 0x40;

const COMPRESSION: u8 = 0x08;

pub(crate) const ENCRYPTION: u8 = 0x04;

const UNSYNCHRONISATION: u8 = 0x02;

const DATA_LENGTH: u8 = 0x01;

// A frame that passed the first checks: its data length must be there, and its body may be cut by the end.
pub(crate) fn with_body(b: &[u8]) -> Result<Option<Head>, Refusal>
    requires { Begun Version.Id3v24 b.now }
    ensures { (depth : ℕ) → depth ≤ 8 → result ≡ head_of Version.Id3v24 depth b.now }
{
    let flags = b[9];
    let n = length_bytes(has(DATA_LENGTH, flags));
    let start = 10 + n;
    let size = frame_size(b).saturating_sub(n);
    if b.len() < start {
        return Err(MISSING_BYTES);
    }
    let left = b.len() - start;
    let compressed = has(COMPRESSION, flags);
    let flagged = has(UNSYNCHRONISATION, flags);
    Ok(Some(found(read32(b, 0), compressed, flagged, start, size, left)))
}

// The size that the header gives: a data length counts in it.
fn frame_size(b: &[u8]) -> usize
    requires { 10 ≤ length b.now }
    ensures { result ≡ frame_size Version.Id3v24 b.now }
{
    decode_u32(read32(b, 4)) as usize
}
