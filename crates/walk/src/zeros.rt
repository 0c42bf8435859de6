// Zeros behind the last frame.
ghost use Rattle.std.specs.Prelude.{◌≡◌, ◌+◌, ◌≤◌, length};
ghost use Rattle.std.proofs.Math.Seq.{slice};
ghost use Rattle.format.specs.Looks.{all_zero};

// Whether the n bytes of s from place i on are zeros. It has no branch, and a fixed length where it is called most, so that it
// becomes vector instructions.
fn block_zero(s: &[u8], i: usize, n: usize) -> bool
    requires { i + n ≤ length s.now }
    ensures { result ≡ all_zero (slice i (i + n) s.now) }
{
    s[i..i + n].iter().fold(true, |all, b| all & (*b == 0))
}

// Whether the bytes of s from `from` to `to` are zeros, or what there is of them.
pub fn all_zero(s: &[u8], from: usize, to: usize) -> bool
    ensures { result ≡ all_zero (slice from to s.now) }
{
    let end = to.min(s.len());
    let start = from.min(end);
    let blocks = (end - start) / 64;
    for k in 0..blocks {
        if !block_zero(s, start + k * 64, 64) {
            return false;
        }
    }
    let at = start + blocks * 64;
    block_zero(s, at, end - at)
}
