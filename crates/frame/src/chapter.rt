// Bodies of chapters and of tables of contents.
ghost use Rattle.std.specs.Prelude.{◌≡◌};
ghost use Rattle.std.proofs.Math.Seq.{slice};
ghost use Rattle.format.specs.declared.Version.{Version};
ghost use Rattle.format.specs.declared.Kind.{Kind};
ghost use Rattle.frame.specs.Bodies.{names_of, parsed_of};

use crate::parts::{nowhere, part, zero_at};
use format::refusals::{MISSING_FIELD, Refusal};
use format::{Fields, Parts, Span};
use loads::read32;

// The first names that s holds, as many as there are to be.
fn names_len(s: &[u8], count: u8) -> Option<usize>
    ensures { result ≡ names_of count s.now }
{
    let mut end: usize = 0;
    for _ in 0..count {
        let rest = &s[end..];
        let len = zero_at(rest);
        if len >= rest.len() {
            return None;
        }
        end += len + 1;
    }
    Some(end)
}

// A chapter's body, in any edition: its element id as the name, four numbers, and the run of subframes as the rest.
pub fn parse_chapter(s: &[u8], from: usize, to: usize) -> Result<Parts, Refusal>
    ensures { (v : Version) → result ≡ parsed_of v Kind.Chapter from (slice from to s.now) }
{
    let b = part(s, from, to);
    let len = zero_at(b);
    let run = len + 17;
    if b.len() < run {
        return Err(MISSING_FIELD);
    }
    let fields = Fields::Chapter {
        start_time: read32(b, len + 1),
        end_time: read32(b, len + 5),
        start_offset: read32(b, len + 9),
        end_offset: read32(b, len + 13),
    };
    Ok(Parts {
        fields,
        name: Span { start: from, len },
        names: nowhere(),
        rest: Span {
            start: from + run,
            len: b.len() - run,
        },
    })
}

// A table of contents, in any edition: its element id as the name, two flags, the children's names, and the run of subframes as the rest.
pub fn parse_contents(s: &[u8], from: usize, to: usize) -> Result<Parts, Refusal>
    ensures { (v : Version) → result ≡ parsed_of v Kind.Contents from (slice from to s.now) }
{
    let b = part(s, from, to);
    let len = zero_at(b);
    let at = len + 3;
    if b.len() < at {
        return Err(MISSING_FIELD);
    }
    let flags = b[len + 1];
    let count = b[len + 2];
    let Some(n) = names_len(part(b, at, b.len()), count) else {
        return Err(MISSING_FIELD);
    };
    let run = at + n;
    Ok(Parts {
        fields: Fields::Contents {
            top_level: flags / 2 % 2 == 1,
            ordered: flags % 2 == 1,
        },
        name: Span { start: from, len },
        names: Span {
            start: from + at,
            len: n,
        },
        rest: Span {
            start: from + run,
            len: b.len() - run,
        },
    })
}
