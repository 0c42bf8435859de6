// The body of a frame, by its kind.
ghost use Rattle.std.specs.Prelude.{◌≡◌};
ghost use Rattle.std.proofs.Math.Seq.{slice};
ghost use Rattle.format.specs.Ids.{kind_of};
ghost use Rattle.frame.specs.Bodies.{parsed_of};

use crate::parts::{nowhere, part};
use crate::{chapter, popularimeter, table, text};
use format::refusals::Refusal;
use format::{Fields, Kind, Parts, Span, Version};

// Ids as numbers, the first letter highest.
const T: u32 = 0x54;

const TXX: u32 = 0x54_5858;

const POP: u32 = 0x50_4F50;

const MLL: u32 = 0x4D_4C4C;

const TXXX: u32 = 0x5458_5858;

const POPM: u32 = 0x504F_504D;

const MLLT: u32 = 0x4D4C_4C54;

const CHAP: u32 = 0x4348_4150;

const CTOC: u32 = 0x4354_4F43;

// What an id says of its body: all ids that begin with T are of texts, but one.
pub fn kind_of(version: Version, id: u32) -> Kind
    ensures { result ≡ kind_of version id }
{
    match version {
        Version::Id3v22 => match id {
            POP => Kind::Popularimeter,
            MLL => Kind::Table,
            TXX => Kind::Raw,
            _ if id / 0x1_0000 == T => Kind::Text,
            _ => Kind::Raw,
        },
        Version::Id3v23 | Version::Id3v24 => match id {
            POPM => Kind::Popularimeter,
            MLLT => Kind::Table,
            CHAP => Kind::Chapter,
            CTOC => Kind::Contents,
            TXXX => Kind::Raw,
            _ if id / 0x100_0000 == T => Kind::Text,
            _ => Kind::Raw,
        },
    }
}

// A body of any other kind, in any edition: all of it is the rest, and no byte of it is looked at.
fn parse_raw(s: &[u8], from: usize, to: usize) -> Result<Parts, Refusal>
    ensures { (v : Version) → result ≡ parsed_of v Kind.Raw from (slice from to s.now) }
{
    let b = part(s, from, to);
    let none = nowhere();
    Ok(Parts {
        fields: Fields::Raw,
        name: none,
        names: none,
        rest: Span {
            start: from,
            len: b.len(),
        },
    })
}

// A body of a kind, which lies in s from `from` to `to`.
pub fn parse(
    version: Version,
    kind: Kind,
    s: &[u8],
    from: usize,
    to: usize,
) -> Result<Parts, Refusal>
    ensures { result ≡ parsed_of version kind from (slice from to s.now) }
{
    match kind {
        Kind::Text => text::parse(version, s, from, to),
        Kind::Popularimeter => popularimeter::parse(s, from, to),
        Kind::Table => table::parse(s, from, to),
        Kind::Chapter => chapter::parse_chapter(s, from, to),
        Kind::Contents => chapter::parse_contents(s, from, to),
        Kind::Raw => parse_raw(s, from, to),
    }
}
