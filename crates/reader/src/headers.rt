// The tag header, and where the frames of a tag lie.
ghost use Rattle.std.specs.Prelude.{◌≡◌, ◌+◌, ◌≤◌, min, length};
ghost use Rattle.std.proofs.Math.Seq.{slice};
ghost use Rattle.format.specs.Numbers.{number, from_synchsafe};
ghost use Rattle.format.specs.Header.{ext_of, header_refusal, region_start, region_end};
ghost use Rattle.format.specs.Refusals.{passed};
ghost use Rattle.reader.specs.Reader.{header_of};
ghost use Rattle.reader.specs.Headers.{is_tag};

use crate::Header;
use format::numbered::{is_version, version_of};
use format::refusals::{
    COMPRESSED_TAG, MISSING_BYTES, NO_TAG, Refusal, SMALL_EXTENDED_HEADER, UNKNOWN_FLAGS,
    UNKNOWN_VERSION,
};
use format::small::has;
use loads::read32;

// The bytes "ID3" as one number.
const ID3: u32 = 0x49_44_33;
// The header flag for an extended header; in 2.2 for a compressed tag.
const EXTENDED: u8 = 0x40;

// The number that four synchsafe bytes from `at` on make.
#[tactic(auto, using(loads::proofs::Words::synchsafe_four))]
fn synchsafe(s: &[u8], at: usize) -> u32
    requires { at + 4 ≤ length s.now }
    ensures { result ≡ from_synchsafe (slice at (at + 4) s.now) }
{
    unsynch::decode_u32(read32(s, at))
}

// Whether there are ten bytes that begin with "ID3".
fn begins(tag: &[u8]) -> bool
    ensures { result ≡ is_tag tag.now }
{
    tag.len() >= 10 && read32(tag, 0) / 256 == ID3
}

// Where a tag of `size` bytes after its header ends: there, or where the slice does.
fn end_of(tag: &[u8], size: u32) -> usize
    ensures { result ≡ min (10 + size) (length tag.now) }
{
    (10 + size as usize).min(tag.len())
}

// The checks of the header in their order.
fn refusal(tag: &[u8]) -> Result<(), Refusal>
    ensures { result ≡ passed (header_refusal tag.now) }
{
    if !begins(tag) {
        return Err(NO_TAG);
    }
    let edition = tag[3];
    let flags = tag[5];
    // Kept: the checks answer no value; with `Version::try_from` they would have to carry the edition to `header`.
    if !is_version(u64::from(edition)) {
        return Err(UNKNOWN_VERSION);
    }
    if flags % 0x10 != 0 {
        return Err(UNKNOWN_FLAGS);
    }
    if !has(EXTENDED, flags) {
        return Ok(());
    }
    if edition == 2 {
        return Err(COMPRESSED_TAG);
    }
    if end_of(tag, synchsafe(tag, 6)) < 16 {
        return Err(MISSING_BYTES);
    }
    if synchsafe(tag, 10) < 6 {
        return Err(SMALL_EXTENDED_HEADER);
    }
    Ok(())
}

// The size of the extended header, 0 where there is none.
#[tactic(auto, using(crate::proofs::Refusals::accepted), unfolding(format::specs::Header::ext_of))]
fn extended_size(tag: &[u8]) -> u32
    requires { header_refusal tag.now ≡ 0 }
    ensures { result ≡ ext_of tag.now }
{
    if has(EXTENDED, tag[5]) {
        synchsafe(tag, 10)
    } else {
        0
    }
}

// The fields of the header at the front of a tag, or why there is none.
#[tactic(auto, using(crate::proofs::Refusals::accepted), unfolding(crate::specs::Reader::header_of))]
pub fn header(tag: &[u8]) -> Result<Header, Refusal>
    ensures { result ≡ header_of tag.now }
{
    refusal(tag)?;
    Ok(Header {
        version: version_of(u64::from(tag[3])),
        flags: tag[5],
        size: synchsafe(tag, 6),
        ext: extended_size(tag),
    })
}

// The frames of a tag lie from start up to end.
#[derive(Drop)]
pub(crate) struct Region {
    pub(crate) start: usize,
    pub(crate) end: usize,
}

// Where the frames of the tag lie whose header is h: after both headers, or from the end if fewer bytes remain.
pub(crate) fn region_of(tag: &[u8], h: Header) -> Region
    requires { header_of tag.now ≡ Ok h }
    ensures { (result.start ≡ region_start tag.now) × (result.end ≡ region_end tag.now) }
{
    let end = end_of(tag, h.size);
    Region {
        start: (10 + h.ext as usize).min(end),
        end,
    }
}
