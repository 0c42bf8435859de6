// A popularimeter's counter in as many bytes as its highest set bit needs.
ghost use Rattle.std.specs.Prelude.{◌≡◌, ◌+◌, ◌≤◌, length};
ghost use Rattle.std.proofs.lemmas.List.Edits.{sets};
ghost use Rattle.format.specs.Popularimeter.{counter_bytes};

use crate::numbers::put_digits;

// How many bytes the highest set bit needs: none for 0.
#[tactic(auto, using(crate::proofs::Digits::counter_width))]
pub(crate) fn width(counter: u64) -> usize
    ensures { result ≡ length (counter_bytes counter) }
{
    (64 - counter.leading_zeros()).div_ceil(8) as usize
}

// Puts the counter from `at` on, and answers how many bytes it took.
#[tactic(auto, using(crate::proofs::Digits::counter_bytes_lem, crate::proofs::Digits::counter_small))]
pub(crate) fn put_counter(buffer: &mut [u8], at: usize, counter: u64) -> usize
    requires { at + 8 ≤ length buffer.old }
    ensures { (result ≡ length (counter_bytes counter)) × (buffer.new ≡ sets buffer.old at (counter_bytes counter)) }
{
    let count = width(counter);
    put_digits(buffer, at, count, counter);
    count
}
