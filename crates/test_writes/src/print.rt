// What is printed of a call after its words, and whether a buffer was left as it was.
use format::refusals::Refusal;
use std::io;
use std::io::Write;
use test_prints::{decimal, either, say};

// Whether a place is one of n from `at` on.
fn is_within(i: usize, at: usize, n: usize) -> bool {
    at <= i && i - at < n
}

// Whether bytes are as they were before, but for n from `at` on.
pub fn is_kept(s: &[u8], before: &[u8], at: usize, n: usize) -> bool {
    s.len() == before.len()
        && s.iter()
            .zip(before)
            .enumerate()
            .all(|(i, (x, y))| x == y || is_within(i, at, n))
}

// How much is used after a call, and whether it changed nothing but what it reports.
fn left<W: Write>(to: &mut W, used: usize, kept: bool) -> io::Result<()> {
    say(to, b" used")?;
    decimal(to, used as u64)?;
    either(to, kept, b" kept", b" changed")
}

// The n bytes from `at` on.
fn part<W: Write>(to: &mut W, s: &[u8], at: usize, n: usize) -> io::Result<()> {
    if s.len() < at || s.len() - at < n {
        say(to, b" outside")
    } else {
        test_prints::hex(to, &s[at..at + n])
    }
}

// A call that reports n bytes from `at` on.
pub fn reported<W: Write>(
    to: &mut W,
    s: &[u8],
    at: usize,
    n: usize,
    used: usize,
    kept: bool,
) -> io::Result<()> {
    decimal(to, n as u64)?;
    left(to, used, kept)?;
    part(to, s, at, n)?;
    say(to, b"\n")
}

// A refused call, which reports no bytes.
pub fn refused<W: Write>(to: &mut W, k: Refusal, used: usize, kept: bool) -> io::Result<()> {
    decimal(to, u64::from(k.number))?;
    left(to, used, kept)?;
    say(to, b"\n")
}
