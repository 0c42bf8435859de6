// What is done with 64 bytes at once, or eight: each loop has no branch, and a fixed length where it is called, so that it becomes vector instructions.
ghost use Rattle.std.specs.Prelude.{◌≡◌, ◌+◌, ◌≤◌, ◌<◌, length};
ghost use Rattle.std.proofs.Math.Seq.{slice};
ghost use Rattle.unsynch.specs.Edits.{any_ff, hits_after, stored};

use crate::loops;
use crate::loops::How;

// Whether one of the n bytes of s from place i on is FF.
pub(crate) fn any_ff(s: &[u8], i: usize, n: usize) -> bool
    requires { i + n ≤ length s.now }
    ensures { result ≡ any_ff (slice i (i + n) s.now) }
{
    s[i..i + n].iter().fold(false, |any, b| any | (*b == 0xFF))
}

// How many of the 64 bytes of s after place i the edit concerns.
fn count(s: &[u8], i: usize, how: How) -> u8
    requires { i + 64 < length s.now }
    ensures { result ≡ hits_after how s.now i (i + 64 + 1) }
{
    let mut n: u8 = 0;
    for k in 0..64 {
        n += u8::from(loops::hit(how, s[i + k] == 0xFF, s[i + k + 1]));
    }
    n
}

// The same, counted only where one of the bytes before them is FF.
pub(crate) fn hits(s: &[u8], i: usize, how: How) -> usize
    requires { i + 64 < length s.now }
    ensures { result ≡ hits_after how s.now i (i + 64 + 1) }
{
    if any_ff(s, i, 64) {
        return usize::from(count(s, i, how));
    }
    0
}

// Stores the n bytes of s after place i, at most 64, from `at` on, by way of an array, which lies apart from both.
// The answer is the place after them.
pub(crate) fn copy_behind(buf: &mut [u8], at: usize, s: &[u8], i: usize, n: usize) -> usize
    requires { (n ≤ 64) × (i + n < length s.now) × (at + n ≤ length buf.old) }
    ensures { (result, buf.new) ≡ stored (slice (i + 1) (i + n + 1) s.now) at buf.old }
{
    let mut block = [0u8; 64];
    block[..n].copy_from_slice(&s[i + 1..i + n + 1]);
    buf[at..at + n].copy_from_slice(&block[..n]);
    at + n
}
