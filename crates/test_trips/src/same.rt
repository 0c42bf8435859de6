// Whether a record that was read is the one that was given.
use format::{Fields, Given, Heading, Record, Span};
use frame::table::unpack;

// The bytes of a span, none where it does not lie in the buffer.
fn part(s: &[u8], span: Span) -> &[u8] {
    if s.len() < span.start || s.len() - span.start < span.len {
        &s[..0]
    } else {
        &s[span.start..span.start + span.len]
    }
}

// Whether the bytes of a span are those given.
fn holds(s: &[u8], span: Span, given: &[u8]) -> bool {
    span.len == given.len() && part(s, span) == given
}

// Whether packed bytes hold the deviations given, those of v bits and of w bits in turn.
fn unpacks(packed: &[u8], v: u8, w: u8, given: &[u32]) -> bool {
    let mut out = [0u32; 4096];
    unpack(&mut out, v, w, packed, 0, packed.len()) == Ok(given.len()) && out.starts_with(given)
}

// Whether a record whose spans lie in s has the bytes given that its kind has.
fn same_parts(s: &[u8], r: Record, given: &Given<'_>) -> bool {
    match r.heading.fields {
        Fields::Popularimeter { .. } => holds(s, r.name, given.name),
        Fields::Table {
            bits_for_bytes,
            bits_for_millis,
            ..
        } => unpacks(
            part(s, r.rest),
            bits_for_bytes,
            bits_for_millis,
            given.deviations,
        ),
        Fields::Chapter { .. } => holds(s, r.name, given.name) && holds(s, r.rest, given.rest),
        Fields::Contents { .. } => {
            holds(s, r.name, given.name)
                && holds(s, r.names, given.names)
                && holds(s, r.rest, given.rest)
        }
        Fields::Text { .. } | Fields::Raw => holds(s, r.rest, given.rest),
    }
}

// Whether a record whose spans lie in s is the one given: the same heading, and the bytes that its kind has.
pub fn is_same(s: &[u8], r: Record, heading: Heading, given: &Given<'_>) -> bool {
    r.heading == heading && same_parts(s, r, given)
}
