// The frames of a tag that is to be changed in place: where they lie, and whether the tag can be plain.
ghost use Rattle.std.specs.Prelude.{◌≡◌, ◌+◌, not, ◌&&◌, length};
ghost use Rattle.std.proofs.Math.Seq.{slice};
ghost use Rattle.format.specs.Looks.{all_zero, is_simple};
ghost use Rattle.reader.specs.Reader.{header_of};
ghost use Rattle.raise.specs.Frames.{framed_of};

use format::Version;
use format::refusals::{NOT_PLAIN, Refusal};
use format::small::has;
use reader::Header;
use reader::headers::header;
use reader::opening::is_whole;
use walk::zeros::all_zero;

// The header flags for unsynchronised bytes and for an extended header.
const UNSYNCHRONISED: u8 = 0x80;

const EXTENDED: u8 = 0x40;

// The place of a tag's frames, and whether its header says something odd.
#[derive(Clone, Copy)]
pub struct Framed {
    pub version: Version,
    pub begin: usize,
    pub end: usize,
    pub odd: bool,
}

// Whether a header says nothing that makes its tag odd: all bytes there, no extended header, not unsynchronised.
fn is_simple(tag: &[u8], h: Header) -> bool
    requires { header_of tag.now ≡ Ok h }
    ensures { result ≡ is_simple tag.now }
{
    tag.len() >= 10 + h.size as usize && !has(EXTENDED, h.flags) && !has(UNSYNCHRONISED, h.flags)
}

// The frames of the tag whose header is h. 40 at once where reading would resynchronise all of it.
fn frames_found(tag: &[u8], h: Header) -> Result<Framed, Refusal>
    requires { header_of tag.now ≡ Ok h }
    ensures { result ≡ framed_of tag.now }
{
    if is_whole(h) {
        return Err(NOT_PLAIN);
    }
    let end = (10 + h.size as usize).min(tag.len());
    Ok(Framed {
        version: h.version,
        begin: (10 + h.ext as usize).min(end),
        end,
        odd: !is_simple(tag, h),
    })
}

// The frames of a tag, by its header alone.
#[tactic(auto, using(crate::proofs::Headed::header_refuses))]
pub fn frames(tag: &[u8]) -> Result<Framed, Refusal>
    ensures { result ≡ framed_of tag.now }
{
    frames_found(tag, header(tag)?)
}

// Whether a tag is plain whose last frame ends at `at`: nothing was odd, and only zeros follow in tag[at..end].
pub fn is_plain_end(tag: &[u8], at: usize, end: usize, odd: bool) -> bool
    ensures { result ≡ (not odd && all_zero (slice at end tag.now)) }
{
    !odd && all_zero(tag, at, end)
}
