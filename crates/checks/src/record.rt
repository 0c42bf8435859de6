// The checks of a record before it is written, in the order of the table.
ghost use Rattle.std.specs.Prelude.{◌≡◌, List, ℕ};
ghost use Rattle.format.specs.Bytes.{first};
ghost use Rattle.format.specs.Record.{text, content_of, given_rec};
ghost use Rattle.format.specs.Encode.{text_check, run_refusal, record_checks};
ghost use Rattle.checks.specs.Checks.{early_checks, late_checks};
ghost use Rattle.format.specs.Refusals.{passed};

use crate::ids::id_check;
use crate::names::{name_check, names_check};
use crate::tables::table_check;
use crate::texts::encoding_check;
use format::refusals::{Refusal, TEXT_ENDS_EARLY, WRONG_RUN};
use format::{Fields, Given, Heading, Version};
use frame::text::text_end;
use walk::run::walk;

// The checks that look at a field or a name alone: 12, 27 and 28.
#[tactic(auto, using(crate::proofs::Firsts::only), unfolding(format::specs::Bytes::first))]
fn early_check(fields: Fields, name: &[u8], names: &[u8]) -> Result<(), Refusal>
    ensures { (rest deviations : List ℕ) →
        result ≡ passed (first (early_checks (content_of fields name.now names.now rest deviations))) }
{
    match fields {
        Fields::Text { encoding } => encoding_check(encoding),
        Fields::Popularimeter { .. } | Fields::Chapter { .. } => name_check(name),
        Fields::Contents { .. } => names_check(name, names),
        Fields::Table { .. } | Fields::Raw => Ok(()),
    }
}

// 26: the reader would end the text early.
fn text_check(version: Version, encoding: u8, bytes: &[u8]) -> Result<(), Refusal>
    ensures { result ≡ passed (text_check version (text encoding bytes.now)) }
{
    let n = bytes.len();
    if text_end(version, encoding, bytes, 0, n) != n {
        return Err(TEXT_ENDS_EARLY);
    }
    Ok(())
}

// 29: the run of subframes is not one that a reader walks through whole. A flagged frame is refused, so that no room is wanted.
fn run_check(version: Version, run: &[u8]) -> Result<(), Refusal>
    ensures { result ≡ passed (run_refusal version run.now) }
{
    let mut none = [0u8; 0];
    walk(&mut none, run, 0, run.len(), version, true, 2).map_err(|_| WRONG_RUN)
}

// The checks that go through a text, a run or a table: 26, 29 and 30 to 34.
#[tactic(auto, using(crate::proofs::Firsts::only), unfolding(format::specs::Bytes::first))]
fn late_check(
    version: Version,
    fields: Fields,
    rest: &[u8],
    deviations: &[u32],
) -> Result<(), Refusal>
    ensures { (name names : List ℕ) →
        result ≡ passed (first (late_checks version (content_of fields name names rest.now deviations.now))) }
{
    match fields {
        Fields::Text { encoding } => text_check(version, encoding, rest),
        Fields::Table {
            bytes,
            millis,
            bits_for_bytes,
            bits_for_millis,
            ..
        } => table_check(bytes, millis, bits_for_bytes, bits_for_millis, deviations),
        Fields::Chapter { .. } | Fields::Contents { .. } => run_check(version, rest),
        Fields::Popularimeter { .. } | Fields::Raw => Ok(()),
    }
}

// 21 to 34 in the table's order: the id and the marks, what looks at a field or a name alone, then the rest. No content meets both 26 and 27 or 28.
pub fn record_check(version: Version, heading: Heading, given: &Given<'_>) -> Result<(), Refusal>
    ensures { result ≡ passed (first (record_checks version (given_rec heading given.now))) }
{
    id_check(version, heading)?;
    early_check(heading.fields, given.name, given.names)?;
    late_check(version, heading.fields, given.rest, given.deviations)
}
