// Opening a meter.
ghost use Rattle.std.specs.Prelude.{◌≡◌, ◌+◌, ◌^◌, ◌<◌, ◌≤◌, min, false, Some, length};
ghost use Rattle.std.proofs.Math.Seq.{slice};
ghost use Rattle.format.specs.Numbers.{number};
ghost use Rattle.format.specs.Header.{flags_of, size_of};
ghost use Rattle.reader.specs.Reader.{reader_at};
ghost use Rattle.meter.specs.Meter.{is_missing, meter_at, meter_open_of};
ghost use Rattle.meter.specs.Openings.{front_of};

use crate::Meter;
use format::Version;
use format::refusals::Refusal;
use loads::read32;
use reader::opening::open as open_reader;
use reader::{Reader, Stop};
use unsynch::decode_u32;

// "ID3" and an edition's number, as one number.
const ID3_2: u32 = 0x4944_3302;

const ID3_3: u32 = 0x4944_3303;

const ID3_4: u32 = 0x4944_3304;

// Bytes of a tag after its ten header bytes, as the header says.
fn size_of(tag: &[u8]) -> usize
    requires { 10 ≤ length tag.now }
    ensures { (result ≡ size_of tag.now) × (result < 2 ^ 32) }
{
    decode_u32(read32(tag, 6)) as usize
}

// Whether a tag has fewer bytes than its header says.
fn is_missing(tag: &[u8]) -> bool
    ensures { result ≡ is_missing tag.now }
{
    tag.len() < 10 || tag.len() - 10 < size_of(tag)
}

// What a header says by its first four bytes as one number and its flag byte. In 2.4 the flag for unsynchronised bytes
// says nothing.
fn front_of(front: u32, flags: u8) -> Option<Version>
    ensures { result ≡ front_of front flags }
{
    match front {
        ID3_2 if flags == 0 => Some(Version::Id3v22),
        ID3_3 if flags == 0 => Some(Version::Id3v23),
        ID3_4 if flags % 0x80 == 0 => Some(Version::Id3v24),
        _ => None,
    }
}

// A reader at the first frame of a tag with such a header.
fn plain_reader(tag: &[u8], version: Version) -> Reader
    requires { 10 ≤ length tag.now }
    ensures { result ≡ reader_at version false 10 (min (10 + size_of tag.now) (length tag.now)) }
{
    Reader {
        version,
        in_work: false,
        begin: 10,
        at: 10,
        end: (10 + size_of(tag)).min(tag.len()),
        stop: Stop::Running,
    }
}

// A meter that has passed nothing yet.
fn metered(reader: Reader, missing: bool) -> Meter
    ensures { result ≡ meter_at missing reader }
{
    Meter {
        reader,
        frames: 0,
        short: false,
        compressed: false,
        missing,
    }
}

// Opens a tag with any header.
fn open_any(work: &mut [u8], tag: &[u8]) -> Result<Meter, Refusal>
    ensures { (result, work.new) ≡ meter_open_of tag.now work.old }
{
    let reader = open_reader(work, tag)?;
    Ok(metered(reader, is_missing(tag)))
}

// The edition of a tag whose header is plain.
fn plain_version(tag: &[u8]) -> Option<Version>
    ensures { (v : Version) → result ≡ Some v → (10 ≤ length tag.now) × (front_of (number (slice 0 4 tag.now)) (flags_of tag.now) ≡ Some v) }
{
    if tag.len() < 10 {
        return None;
    }
    front_of(read32(tag, 0), tag[5])
}

// Opens a tag as a reader does: a meter at its first frame. Nearly every tag has a plain header, which takes few
// instructions.
pub fn open(work: &mut [u8], tag: &[u8]) -> Result<Meter, Refusal>
    ensures { (result, work.new) ≡ meter_open_of tag.now work.old }
{
    match plain_version(tag) {
        Some(version) => Ok(metered(plain_reader(tag, version), is_missing(tag))),
        None => open_any(work, tag),
    }
}
