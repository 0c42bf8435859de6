// Replays raises: reads cases from standard input, and prints for each what the call answers and all the lent bytes after it. The
// layout of a case and of a line stands in tests/raises.py. A tag with what follows it has at most 4096 bytes, and so has a user.
#![tactic(auto)]

use loads::read32;
use std::io;
use std::io::{Read, Write};
use streams::read_full;
use test_prints::input::{next_bytes, next_u32, next_u64};
use test_prints::{decimal, hex, say};

// Raises a counter, and prints the new counter, or the number of the refusal, and the bytes.
fn replay<W: Write>(to: &mut W, tag: &mut [u8], user: &[u8], amount: u64) -> io::Result<()> {
    match raise::raise(tag, user, amount) {
        Ok(counter) => {
            say(to, b" counts")?;
            decimal(to, counter)?;
        }
        Err(k) => {
            say(to, b" refused")?;
            decimal(to, u64::from(k.number))?;
        }
    }
    hex(to, tag)?;
    say(to, b"\n")
}

// Reads a case and replays it, and answers whether there was one.
fn next<R: Read, W: Write>(from: &mut R, to: &mut W, number: u64) -> io::Result<bool> {
    let mut front = [0u8; 4];
    if read_full(from, &mut front)? < 4 {
        return Ok(false);
    }
    say(to, b"case")?;
    decimal(to, number)?;
    let mut tag = [0u8; 4096];
    let a = next_bytes(from, &mut tag, read32(&front, 0))?;
    let mut user = [0u8; 4096];
    let n = next_u32(from)?;
    let b = next_bytes(from, &mut user, n)?;
    let amount = next_u64(from)?;
    replay(to, &mut tag[..a], &user[..b], amount)?;
    Ok(true)
}

// The number of cases is not known, so that the loop counts up to one that no input reaches.
fn main(rt: HostRuntime) -> io::Result<()> {
    let mut from = rt.stdin();
    let mut to = rt.stdout();
    for number in 1..u64::MAX {
        if !next(&mut from, &mut to, number)? {
            break;
        }
    }
    Ok(())
}
