// Beginning a writer.
ghost use Rattle.std.specs.Prelude.{◌≡◌};
ghost use Rattle.writer.specs.Writer.{begin_of, begin_plain_of};

use crate::Writer;
use format::refusals::Refusal;
use format::{Mode, Version};

// Begins a writer: version 2, 3 or 4, mode 0 (off), 1 (crate) or 2 (standard), and whether the file was altered.
#[tactic(auto, unfolding(crate::specs::Writer::begin_of))]
pub fn begin(version: u8, mode: u8, altered: bool) -> Result<Writer, Refusal>
    ensures { result ≡ begin_of version mode altered }
{
    Ok(Writer {
        version: Version::try_from(u64::from(version))?,
        mode: Mode::try_from(u64::from(mode))?,
        altered,
        used: 0,
    })
}

// Begins a writer without a mode, of a file that was not altered.
pub fn begin_plain(version: u8) -> Result<Writer, Refusal>
    ensures { result ≡ begin_plain_of version }
{
    begin(version, 0, false)
}
