// Moving bytes inside one buffer, down or up, in one pass over what moves. What it means stands in specs/.
#![tactic(auto)]

ghost use Rattle.std.specs.Prelude.{◌≡◌, ◌+◌, ◌-◌, ◌≤◌, length};
ghost use Rattle.std.proofs.Math.Seq.{slice};
ghost use Rattle.std.proofs.lemmas.List.Edits.{sets};
ghost use Rattle.format.specs.Bytes.{zeros};
ghost use Rattle.moves.specs.Moves.{shifted};

// Moves n bytes, at most 64, by way of an array, so that their old and their new place may overlap.
fn move_block(s: &mut [u8], from: usize, at: usize, n: usize)
    requires { (n ≤ 64) × (from + n ≤ length s.old) × (at + n ≤ length s.old) }
    ensures { s.new ≡ sets s.old at (slice from (from + n) s.old) }
{
    let mut block = [0u8; 64];
    block[..n].copy_from_slice(&s[from..from + n]);
    s[at..at + n].copy_from_slice(&block[..n]);
}

// Moves n bytes down, the first ones first.
fn move_down(s: &mut [u8], from: usize, at: usize, n: usize)
    requires { (at ≤ from) × (from + n ≤ length s.old) }
    ensures { s.new ≡ sets s.old at (slice from (from + n) s.old) }
{
    let blocks = n / 64;
    for k in 0..blocks {
        move_block(s, from + k * 64, at + k * 64, 64);
    }
    move_block(s, from + blocks * 64, at + blocks * 64, n % 64);
}

// Moves n bytes up, the last ones first.
// Kept: a twin of move_down; its blocks go from the other end, and so does what is known of them.
fn move_up(s: &mut [u8], from: usize, at: usize, n: usize)
    requires { (from ≤ at) × (at + n ≤ length s.old) }
    ensures { s.new ≡ sets s.old at (slice from (from + n) s.old) }
{
    let left = n % 64;
    for k in (0..n / 64).rev() {
        let rest = left + k * 64;
        move_block(s, from + rest, at + rest, 64);
    }
    move_block(s, from, at, left);
}

// Moves s[from..to] to the place `at`. Moved down, they leave zeros behind them. Where there is no such place nothing changes.
pub fn shift(s: &mut [u8], from: usize, to: usize, at: usize)
    ensures { s.new ≡ shifted from to at s.old }
{
    if at == from {
        return;
    }
    if to < from {
        return;
    }
    if s.len() < to {
        return;
    }
    let n = to - from;
    if s.len() - n < at {
        return;
    }
    // Kept: blocks of our own. `copy_within` was tried, and takes 14 instructions for each 64 bytes; the bar is 12 (docs/SPEED.md).
    if at < from {
        move_down(s, from, at, n);
        s[at + n..to].fill(0);
        return;
    }
    move_up(s, from, at, n);
}
