// The bytes of a counter, and a counter raised in them.
ghost use Rattle.std.specs.Prelude.{◌≡◌, ◌-◌, ◌^◌, ◌≤◌, length, ltb};
ghost use Rattle.std.proofs.lemmas.List.Edits.{sets};
ghost use Rattle.format.specs.Numbers.{bytes_of};
ghost use Rattle.raise.specs.Seeks.{raised_at};

use format::refusals::{COUNTER_TOO_SHORT, Refusal, SUM_TOO_LARGE};

// Whether n bytes hold a value.
fn fits(value: u64, n: usize) -> bool
    ensures { result ≡ ltb value (256 ^ n) }
{
    n >= 8 || value >> (8 * n) == 0
}

// Puts a value into tag[start..stop], with zeros in front, from its last byte on.
fn put_value(tag: &mut [u8], start: usize, stop: usize, value: u64)
    requires { (start ≤ stop) × (stop ≤ length tag.old) }
    ensures { tag.new ≡ sets tag.old start (bytes_of (stop - start) value) }
{
    let mut left = value;
    for at in (start..stop).rev() {
        tag[at] = (left % 256) as u8;
        left = left / 256;
    }
}

// Adds the amount to the counter in tag[start..stop]: 43, then 44, also where there are no such bytes, or the sum, with zeros
// in front of it.
pub fn raise_at(
    tag: &mut [u8],
    start: usize,
    stop: usize,
    counter: u64,
    amount: u64,
) -> Result<u64, Refusal>
    ensures { (result, tag.new) ≡ raised_at start stop counter amount tag.old }
{
    let Some(value) = counter.checked_add(amount) else {
        return Err(SUM_TOO_LARGE);
    };
    if stop < start || tag.len() < stop || !fits(value, stop - start) {
        return Err(COUNTER_TOO_SHORT);
    }
    put_value(tag, start, stop, value);
    Ok(value)
}
