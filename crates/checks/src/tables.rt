// Lookup tables before they are written: their widths, steps and deviations.
ghost use Rattle.std.specs.Prelude.{◌≡◌, ◌&&◌, ◌++◌, ◌+◌, ◌%◌, ◌^◌, eqb, ltb};
ghost use Rattle.format.specs.Bytes.{pick, first};
ghost use Rattle.format.specs.Table.{width_checks, fit};
ghost use Rattle.format.specs.Encode.{deviation_checks};
ghost use Rattle.format.specs.Refusals.{passed};

use format::refusals::{ODD_REFERENCES, Refusal, WRONG_DEVIATION};
use frame::table::widths_refusal;

// Whether a number fits a width.
#[tactic(auto, using(crate::proofs::Fitting::any_fits))]
fn fits(x: u32, width: u8) -> bool
    ensures { result ≡ ltb x (2 ^ width) }
{
    width >= 32 || x < 1u32 << width
}

// Whether each deviation fits its width.
fn all_fit(deviations: &[u32], v: u8, w: u8) -> bool
    ensures { result ≡ fit v w deviations.now }
{
    let mut a = v;
    let mut b = w;
    for x in deviations {
        if !fits(*x, a) {
            return false;
        }
        (a, b) = (b, a);
    }
    true
}

// 34: the widths sum to 4, and the references, half of n, are odd in number.
fn odd_check(sum: u16, n: usize) -> Result<(), Refusal>
    ensures { result ≡ passed (pick (eqb sum 4 && eqb (n % 4) 2) 34 0) }
{
    if sum == 4 && n % 4 == 2 {
        return Err(ODD_REFERENCES);
    }
    Ok(())
}

// 33 and 34: the deviations and the steps.
#[tactic(auto, using(crate::proofs::Firsts::only), unfolding(format::specs::Bytes::first))]
fn deviations_check(
    bytes: u32,
    millis: u32,
    v: u8,
    w: u8,
    deviations: &[u32],
) -> Result<(), Refusal>
    ensures { result ≡ passed (first (deviation_checks bytes millis v w deviations.now)) }
{
    let in_pairs = deviations.len() % 2 == 0;
    if !in_pairs || !all_fit(deviations, v, w) || !fits(bytes, 24) || !fits(millis, 24) {
        return Err(WRONG_DEVIATION);
    }
    odd_check(u16::from(v) + u16::from(w), deviations.len())
}

// 30 to 34 in their order: `table_checks` of any table with these numbers and deviations.
pub(crate) fn table_check(
    bytes: u32,
    millis: u32,
    v: u8,
    w: u8,
    deviations: &[u32],
) -> Result<(), Refusal>
    ensures { result ≡ passed (first (width_checks v w ++ deviation_checks bytes millis v w deviations.now)) }
{
    widths_refusal(v, w)?;
    deviations_check(bytes, millis, v, w, deviations)
}
