// Opening a reader.
ghost use Rattle.std.specs.Prelude.{◌≡◌};
ghost use Rattle.reader.specs.Reader.{header_of, reader_at, open_of};
ghost use Rattle.reader.specs.Headers.{is_whole_in};

use crate::headers::{header, region_of};
use crate::{Header, Reader, Stop};
use format::Version;
use format::refusals::Refusal;
use format::small::has;

// The header flag for unsynchronised bytes.
const UNSYNCHRONISED: u8 = 0x80;

// Whether all bytes after the headers are resynchronised. In 2.4 only a frame's own flag counts.
pub fn is_whole(h: Header) -> bool
    ensures { result ≡ is_whole_in h.version h.flags }
{
    h.version != Version::Id3v24 && has(UNSYNCHRONISED, h.flags)
}

// A reader at the first of the frames that lie from begin up to end.
fn ready(version: Version, in_work: bool, begin: usize, end: usize) -> Reader
    ensures { result ≡ reader_at version in_work begin end }
{
    Reader {
        version,
        in_work,
        begin,
        at: begin,
        end,
        stop: Stop::Running,
    }
}

// Opens the tag whose header is h.
fn open_found(work: &mut [u8], tag: &[u8], h: Header) -> Result<Reader, Refusal>
    requires { header_of tag.now ≡ Ok h }
    ensures { (result, work.new) ≡ open_of tag.now work.old }
{
    let region = region_of(tag, h);
    if !is_whole(h) {
        return Ok(ready(h.version, false, region.start, region.end));
    }
    let n = unsynch::resync_into(work, tag, region.start, region.end)?;
    Ok(ready(h.version, true, 0, n))
}

// Opens a tag: a reader at its first frame. An unsynchronised 2.2 or 2.3 tag is resynchronised to the front of the
// work buffer; one that is too small is left as it was.
#[tactic(auto, using(crate::proofs::Opens::open_refused))]
pub fn open(work: &mut [u8], tag: &[u8]) -> Result<Reader, Refusal>
    ensures { (result, work.new) ≡ open_of tag.now work.old }
{
    let h = header(tag)?;
    open_found(work, tag, h)
}
