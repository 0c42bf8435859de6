// How long a body may be.
ghost use Rattle.std.specs.Prelude.{◌≡◌};
ghost use Rattle.checks.specs.Sizes.{size_refusal};
ghost use Rattle.format.specs.Refusals.{passed};

use format::Version;
use format::refusals::{EMPTY_BODY, LONG_BODY, Refusal, TOO_LONG};

// 22, 23 and 24, of a body as it is stored: in 2.2 it has 1 to 16,777,215 bytes, from 2.3 on at most 268,435,455.
#[tactic(auto, unfolding(crate::specs::Sizes::size_refusal, format::specs::Bytes::first))]
pub fn size_check(version: Version, size: usize) -> Result<(), Refusal>
    ensures { result ≡ passed (size_refusal version size) }
{
    match version {
        Version::Id3v22 if size == 0 => Err(EMPTY_BODY),
        Version::Id3v22 if 0xFFFFFF < size => Err(LONG_BODY),
        Version::Id3v23 | Version::Id3v24 if 0xFFFFFFF < size => Err(TOO_LONG),
        _ => Ok(()),
    }
}
