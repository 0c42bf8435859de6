// Finishing a tag: header, frames and padding.
ghost use Rattle.std.specs.Prelude.{◌≡◌, ◌+◌, ◌^◌, ◌≤◌, ◌<◌, length, take, leb};
ghost use Rattle.std.proofs.lemmas.List.Edits.{sets};
ghost use Rattle.format.specs.Bytes.{zeros};
ghost use Rattle.format.specs.Encode.{whole_of, flags_byte, region_bytes, tag_of};
ghost use Rattle.unsynch.specs.Puts.{placed_of};
ghost use Rattle.writer.specs.Writer.{finish_of};
ghost use Rattle.writer.specs.Finishes.{whole_mode, header_bytes, frames_put};

use crate::Writer;
use crate::numbers::{put_digits, synchsafe_word};
use crate::pens::LIMIT;
use format::refusals::{NO_ROOM, Refusal, TOO_LONG};
use format::{Mode, Version};
use unsynch::{unsync_into, unsync_len};

// The letters ID3.
const ID3: u64 = 0x494433;

// The mode by which frames are unsynchronised as a whole: those of 2.4 are not.
fn whole_mode(version: Version, mode: Mode) -> Mode
    ensures { result ≡ whole_mode version mode }
{
    match version {
        Version::Id3v22 | Version::Id3v23 => mode,
        Version::Id3v24 => Mode::Off,
    }
}

// The flags of the header: 80 where a mode is on.
fn flags_byte(mode: Mode) -> u64
    ensures { result ≡ flags_byte mode }
{
    match mode {
        Mode::Off => 0,
        Mode::Crate | Mode::Standard => 0x80,
    }
}

// Whether the frames that are there and the padding are too long for a tag. They are counted only where it depends on them.
#[tactic(auto, using(crate::proofs::Finishes::short_frames, crate::proofs::Finishes::by_count))]
fn is_too_long(buffer: &[u8], used: usize, version: Version, mode: Mode, padding: usize) -> bool
    ensures { result ≡ leb (2 ^ 28) (length (region_bytes version mode padding (take used buffer.now))) }
{
    if padding >= LIMIT {
        return true;
    }
    let left = LIMIT - padding;
    used > left / 2 && unsync_len(buffer, 0, used, false, whole_mode(version, mode)) >= left
}

// Puts the frames after the place of the header, where that leaves room for the padding.
fn put_frames(
    output: &mut [u8],
    buffer: &[u8],
    used: usize,
    version: Version,
    mode: Mode,
    padding: usize,
) -> Result<usize, Refusal>
    ensures { (result, output.new) ≡ frames_put (whole_of version mode (take used buffer.now)) padding output.old }
{
    let room = output.len().checked_sub(padding).ok_or(NO_ROOM)?;
    unsync_into(
        &mut output[..room],
        10,
        buffer,
        0,
        used,
        false,
        whole_mode(version, mode),
    )
}

// Puts n zeros from `at` on.
fn put_zeros(output: &mut [u8], at: usize, n: usize)
    requires { at + n ≤ length output.old }
    ensures { output.new ≡ sets output.old at (zeros n) }
{
    output[at..at + n].fill(0);
}

// Puts the ten bytes of a header before a region of `size` bytes.
fn put_header(output: &mut [u8], version: Version, mode: Mode, size: usize)
    requires { (10 ≤ length output.old) × (size < 2 ^ 28) }
    ensures { output.new ≡ sets output.old 0 (header_bytes version mode size) }
{
    put_digits(output, 0, 3, ID3);
    put_digits(output, 3, 1, u64::from(u8::from(version)));
    put_digits(output, 4, 2, flags_byte(mode));
    put_digits(output, 6, 4, synchsafe_word(size));
}

// Puts a tag at the front of the output. One that is too small is left as it was.
fn put_tag(
    output: &mut [u8],
    buffer: &[u8],
    used: usize,
    version: Version,
    mode: Mode,
    padding: usize,
) -> Result<usize, Refusal>
    requires { length (region_bytes version mode padding (take used buffer.now)) < 2 ^ 28 }
    ensures { (result, output.new) ≡ placed_of (tag_of version mode padding (take used buffer.now)) 0 output.old }
{
    let n = put_frames(output, buffer, used, version, mode, padding)?;
    put_zeros(output, 10 + n, padding);
    put_header(output, version, mode, n + padding);
    Ok(10 + (n + padding))
}

impl Writer {
    // Finishes a tag at the front of the output: its length, with the writer, which stays as it was. A refused call leaves the
    // output as it was.
    #[tactic(auto, using(crate::proofs::Finishes::finish_long, crate::proofs::Finishes::finish_missing))]
    pub fn finish(
        self,
        output: &mut [u8],
        buffer: &[u8],
        padding: usize,
    ) -> (Result<usize, Refusal>, Writer)
        ensures { (result, output.new) ≡ finish_of self padding buffer.now output.old }
    {
        if is_too_long(buffer, self.used, self.version, self.mode, padding) {
            return (Err(TOO_LONG), self);
        }
        if buffer.len() < self.used {
            return (Err(NO_ROOM), self);
        }
        let put = put_tag(output, buffer, self.used, self.version, self.mode, padding);
        (put, self)
    }
}
