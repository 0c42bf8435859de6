// Reading test data, numbers with the highest byte first. What is missing at the end counts as 0.
ghost use Rattle.std.specs.Io.{ReadsAtMost};

use loads::read32;
use std::io;
use std::io::Read;
use streams::read_full;

// The next byte.
pub fn next_u8<R: Read>(from: &mut R) -> io::Result<u8> {
    let mut b = [0u8; 1];
    read_full(from, &mut b)?;
    Ok(b[0])
}

// The number in the next four bytes.
pub fn next_u32<R: Read>(from: &mut R) -> io::Result<u32> {
    let mut b = [0u8; 4];
    read_full(from, &mut b)?;
    Ok(read32(&b, 0))
}

// The number in the next eight bytes.
pub fn next_u64<R: Read>(from: &mut R) -> io::Result<u64> {
    let high = u64::from(next_u32(from)?);
    let low = u64::from(next_u32(from)?);
    Ok((high << 32) + low)
}

// Puts the next n bytes at the front of a space, or as many as it takes, and answers how many there were.
pub fn next_bytes<R: Read>(from: &mut R, space: &mut [u8], n: u32) -> io::Result<usize>
    ensures { ReadsAtMost result space.new }
{
    let most = space.len().min(n as usize);
    read_full(from, &mut space[..most])
}
