// Frame ids before they are written: their characters, their kinds, and those that an altered file loses.
ghost use Rattle.std.specs.Prelude.{◌≡◌, ◌&&◌, List, [], ◌∷◌, ℕ, leb};
ghost use Rattle.format.specs.Bytes.{pick, first};
ghost use Rattle.format.specs.Numbers.{bytes_of};
ghost use Rattle.format.specs.Ids.{is_id_byte, all_id_bytes, is_id};
ghost use Rattle.format.specs.Record.{content_of, rec_of};
ghost use Rattle.format.specs.Encode.{kind_in, is_raw, same_kind, id_check, raw_check, is_lost};
ghost use Rattle.format.specs.Refusals.{passed};

use format::refusals::{NOT_WRITABLE, Refusal, WRONG_ID};
use format::{Fields, Heading, Kind, Version};
use frame::body::kind_of;

// Whether a number lies from low to high.
fn is_within(low: u32, high: u32, b: u32) -> bool
    ensures { result ≡ (leb low b && leb b high) }
{
    low <= b && b <= high
}

// A-Z and 0-9.
fn is_id_byte(b: u32) -> bool
    ensures { result ≡ is_id_byte b }
{
    is_within(0x41, 0x5A, b) || is_within(0x30, 0x39, b)
}

// The lowest three bytes of an id.
#[tactic(auto, using(crate::proofs::Headings::three_bytes))]
fn are_id_bytes(id: u32) -> bool
    ensures { result ≡ all_id_bytes (bytes_of 3 id) }
{
    is_id_byte(id / 0x10000 % 256) && is_id_byte(id / 256 % 256) && is_id_byte(id % 256)
}

// Whether an id may be written: as many characters as the edition has.
#[tactic(auto, using(crate::proofs::Headings::four_bytes))]
fn is_id(version: Version, id: u32) -> bool
    ensures { result ≡ is_id version id }
{
    match version {
        Version::Id3v22 => id < 0x1000000 && are_id_bytes(id),
        Version::Id3v23 | Version::Id3v24 => is_id_byte(id / 0x1000000) && are_id_bytes(id),
    }
}

// The kind of a record's fields.
fn kind_in(fields: Fields) -> Kind
    ensures { (name names rest deviations : List ℕ) → result ≡ kind_in (content_of fields name names rest deviations) }
{
    match fields {
        Fields::Text { .. } => Kind::Text,
        Fields::Popularimeter { .. } => Kind::Popularimeter,
        Fields::Table { .. } => Kind::Table,
        Fields::Chapter { .. } => Kind::Chapter,
        Fields::Contents { .. } => Kind::Contents,
        Fields::Raw => Kind::Raw,
    }
}

// Whether the record's own kind may stand under an id of the kind that the id says.
fn kind_check(own: Kind, said: Kind) -> Result<(), Refusal>
    ensures { result ≡ passed (pick (is_raw own) (pick (is_raw said) 0 25) (pick (same_kind said own) 0 21)) }
{
    match (own, said) {
        (Kind::Raw, Kind::Raw) => Ok(()),
        (Kind::Raw, _) => Err(NOT_WRITABLE),
        _ if said == own => Ok(()),
        _ => Err(WRONG_ID),
    }
}

// 21 and 25: the id, the kind under it, and the marks.
pub(crate) fn id_check(version: Version, heading: Heading) -> Result<(), Refusal>
    ensures { (name names rest deviations : List ℕ) →
        let whole = rec_of heading name names rest deviations in
        result ≡ passed (first (id_check version whole ∷ raw_check version whole ∷ [])) }
{
    let id = heading.id;
    if !is_id(version, id) {
        return Err(WRONG_ID);
    }
    kind_check(kind_in(heading.fields), kind_of(version, id))?;
    if heading.short || heading.compressed {
        return Err(NOT_WRITABLE);
    }
    Ok(())
}

// What an altered file loses in 2.2: CRA, ETC, EQU, MLL, SLT, STC, RVA, TEN, TLE, TSI.
const ALTERED3: [u32; 10] = [
    0x435241, 0x455443, 0x455155, 0x4D4C4C, 0x534C54, 0x535443, 0x525641, 0x54454E, 0x544C45,
    0x545349,
];

// The same in 2.3 and 2.4: AENC, ETCO, EQUA, MLLT, POSS, SYLT, SYTC, RVAD, TENC, TLEN, TSIZ.
const ALTERED4: [u32; 11] = [
    0x41454E43, 0x4554434F, 0x45515541, 0x4D4C4C54, 0x504F5353, 0x53594C54, 0x53595443, 0x52564144,
    0x54454E43, 0x544C454E, 0x5453495A,
];

// Whether a frame is skipped: an altered file loses it.
#[tactic(auto, using(crate::proofs::Headings::among_any))]
pub fn is_lost(version: Version, altered: bool, id: u32) -> bool
    ensures { result ≡ is_lost version altered id }
{
    if !altered {
        return false;
    }
    match version {
        Version::Id3v22 => ALTERED3.contains(&id),
        Version::Id3v23 | Version::Id3v24 => ALTERED4.contains(&id),
    }
}
