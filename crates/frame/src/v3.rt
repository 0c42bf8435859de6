// Frame headers of ID3v2.3: four bytes of id, four of size, two of flags.
ghost use Rattle.std.specs.Prelude.{◌≡◌, ℕ, ◌≤◌};
ghost use Rattle.format.specs.Frame.{head_of};
ghost use Rattle.format.specs.declared.Version.{Version};
ghost use Rattle.frame.specs.Headers.{Begun};

use crate::fields::{found, length_bytes};
use format::Head;
use format::refusals::{MISSING_BYTES, Refusal, SMALL_FRAME};
use format::small::has;
use loads::read32;

// The bits of the low byte of the flags.
const COMPRESSION: u8 = 0x80;

pub(crate) const ENCRYPTION: u8 = 0x40;

pub(crate) const GROUPING: u8 = 0x20;

// A frame that passed the first checks: its data length, where it is compressed, and its body must be there whole.
pub(crate) fn with_body(b: &[u8]) -> Result<Option<Head>, Refusal>
    requires { Begun Version.Id3v23 b.now }
    ensures { (depth : ℕ) → depth ≤ 8 → result ≡ head_of Version.Id3v23 depth b.now }
{
    let compressed = has(COMPRESSION, b[9]);
    let n = length_bytes(compressed);
    let start = 10 + n;
    if b.len() < start {
        return Err(MISSING_BYTES);
    }
    let whole = read32(b, 4) as usize;
    if whole < n {
        return Err(SMALL_FRAME);
    }
    let size = whole - n;
    let left = b.len() - start;
    if left < size {
        return Err(MISSING_BYTES);
    }
    Ok(Some(found(read32(b, 0), compressed, false, start, size, left)))
}
