// What the programs that replay test data print, and how they read them.
#![tactic(auto)]

pub mod input;

use std::io;
use std::io::Write;

// Bytes as they are.
pub fn say<W: Write>(to: &mut W, text: &[u8]) -> io::Result<()> {
    to.write_all(text)
}

// A space and a number.
pub fn decimal<W: Write>(to: &mut W, n: u64) -> io::Result<()> {
    write!(to, " {n}")
}

// One of two words.
pub fn either<W: Write>(to: &mut W, yes: bool, a: &[u8], b: &[u8]) -> io::Result<()> {
    if yes { say(to, a) } else { say(to, b) }
}

// Bytes in hexadecimal.
fn pairs<W: Write>(to: &mut W, s: &[u8]) -> io::Result<()> {
    for x in s {
        write!(to, "{:02x}", *x)?;
    }
    Ok(())
}

// A space, and bytes in hexadecimal, a dash for none.
pub fn hex<W: Write>(to: &mut W, s: &[u8]) -> io::Result<()> {
    say(to, b" ")?;
    if s.is_empty() {
        say(to, b"-")?;
    }
    pairs(to, s)
}

// The sum of the bytes, and the sum of these sums, byte by byte.
pub fn sums<W: Write>(to: &mut W, s: &[u8]) -> io::Result<()> {
    let mut a = 0u64;
    let mut b = 0u64;
    for x in s {
        a = a.wrapping_add(u64::from(*x));
        b = b.wrapping_add(a);
    }
    decimal(to, a)?;
    decimal(to, b)
}
