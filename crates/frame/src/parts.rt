// Parts of slices.
ghost use Rattle.std.specs.Prelude.{◌≡◌};
ghost use Rattle.std.proofs.Math.Seq.{slice};
ghost use Rattle.format.specs.Bytes.{zero_at};
ghost use Rattle.format.specs.Record.{nowhere as noSpan};

use format::Span;

// The part of s from `from` to `to`, or what there is of it.
// Kept: `from` and `to` of a slice may be any (the callers' clauses), and spans count from the slice's start.
pub(crate) fn part(s: &[u8], from: usize, to: usize) -> &[u8]
    ensures { result.now ≡ slice from to s.now }
{
    let end = to.min(s.len());
    &s[from.min(end)..end]
}

// Before the first zero, or at the end.
#[tactic(auto, using(crate::proofs::Ends::zero_here, crate::proofs::Ends::zero_next, crate::proofs::Ends::zero_end))]
pub fn zero_at(s: &[u8]) -> usize
    ensures { result ≡ zero_at s.now }
{
    // Kept: with position a popularimeter's parse is called and not put in; the meter misses 700 in 2.2 off (docs/SPEED.md).
    let mut i = 0;
    while i < s.len() {
        if s[i] == 0 {
            return i;
        }
        i += 1;
    }
    i
}

// The span of a part that a kind lacks.
pub(crate) fn nowhere() -> Span
    ensures { result ≡ noSpan }
{
    Span { start: 0, len: 0 }
}
