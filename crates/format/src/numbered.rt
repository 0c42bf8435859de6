// The editions and the modes as numbers.
ghost use Rattle.std.specs.Prelude.{◌≡◌, ◌≤◌};
ghost use Rattle.format.specs.Header.{version_of};
ghost use Rattle.format.specs.Frame.{head_len};
ghost use Rattle.format.specs.Numbered.{version_number, is_version, version_said, mode_of, mode_number, mode_said};

use crate::refusals::{Refusal, UNKNOWN_VERSION};
use crate::{Mode, Version};

// The edition that a number says; a number that says none is taken for 4.
// Kept: is_version and this beside TryFrom, for the header's checks answer no value.
pub fn version_of(n: u64) -> Version
    ensures { result ≡ version_of n }
{
    match n {
        2 => Version::Id3v22,
        3 => Version::Id3v23,
        _ => Version::Id3v24,
    }
}

// Whether a number says an edition.
pub fn is_version(n: u64) -> bool
    ensures { result ≡ is_version n }
{
    (2 <= n) & (n <= 4)
}

// How many bytes a frame's header has.
pub fn head_len(version: Version) -> usize
    ensures { (result ≡ head_len version) × (result ≤ 10) }
{
    match version {
        Version::Id3v22 => 6,
        Version::Id3v23 => 10,
        Version::Id3v24 => 10,
    }
}

// The mode that a number says; a number that says none is taken for 2.
// Kept beside TryFrom: it cannot fail.
pub fn mode_of(n: u64) -> Mode
    ensures { result ≡ mode_of n }
{
    match n {
        0 => Mode::Off,
        1 => Mode::Crate,
        _ => Mode::Standard,
    }
}

// The edition that a number says.
impl TryFrom<u64> for Version {
    type Error = Refusal;

    ghost try_from_gives = { λ n r. r ≡ version_said n };

    fn try_from(n: u64) -> Result<Version, Refusal> {
        match n {
            2 => Ok(Version::Id3v22),
            3 => Ok(Version::Id3v23),
            4 => Ok(Version::Id3v24),
            _ => Err(UNKNOWN_VERSION),
        }
    }
}

// The number of an edition.
impl From<Version> for u8 {
    ghost from_gives = { λ version n. n ≡ version_number version };

    fn from(version: Version) -> u8 {
        match version {
            Version::Id3v22 => 2,
            Version::Id3v23 => 3,
            Version::Id3v24 => 4,
        }
    }
}

// The mode that a number says.
impl TryFrom<u64> for Mode {
    type Error = Refusal;

    ghost try_from_gives = { λ n r. r ≡ mode_said n };

    fn try_from(n: u64) -> Result<Mode, Refusal> {
        if n > 2 {
            return Err(UNKNOWN_VERSION);
        }
        Ok(mode_of(n))
    }
}

// The number of a mode.
impl From<Mode> for u8 {
    ghost from_gives = { λ mode n. n ≡ mode_number mode };

    fn from(mode: Mode) -> u8 {
        match mode {
            Mode::Off => 0,
            Mode::Crate => 1,
            Mode::Standard => 2,
        }
    }
}
