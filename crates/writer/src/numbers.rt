// Numbers put into a lent buffer as bytes, highest first.
ghost use Rattle.std.specs.Prelude.{◌≡◌, ◌+◌, ◌^◌, ◌≤◌, ◌<◌, length};
ghost use Rattle.std.proofs.lemmas.List.Edits.{sets};
ghost use Rattle.format.specs.Numbers.{bytes_of, synchsafe};

use unsynch::encode_u32;

// Puts the lowest `count` bytes of n from `at` on.
pub(crate) fn put_digits(buffer: &mut [u8], at: usize, count: usize, n: u64)
    requires { (count ≤ 8) × (at + count ≤ length buffer.old) }
    ensures { buffer.new ≡ sets buffer.old at (bytes_of count n) }
{
    let bytes = n.to_be_bytes();
    buffer[at..at + count].copy_from_slice(&bytes[8 - count..]);
}

// The number whose four bytes are the synchsafe form of a size.
#[tactic(auto, using(crate::proofs::Digits::word_bytes))]
pub(crate) fn synchsafe_word(size: usize) -> u64
    requires { size < 2 ^ 28 }
    ensures { bytes_of 4 result ≡ synchsafe size }
{
    u64::from(encode_u32(size as u32).unwrap_or(0))
}
