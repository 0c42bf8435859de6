// Whether the bytes of an id are UTF-8, by the class of each byte.
ghost use Rattle.std.specs.Prelude.{◌≡◌, List, ◌∷◌, ℕ, Some};
ghost use Rattle.format.specs.Ids.{is_utf8};
ghost use Rattle.frame.specs.Utf8.{tails_of, goes_on};

use format::classes::class;

// So many tails, the first of them from `low` to `high`, that may come next.
#[derive(Clone, Copy)]
struct Tails {
    count: u8,
    low: u8,
    high: u8,
}

// What may come next where that many tails are due.
fn due(count: u8, low: u8, high: u8) -> Option<Tails>
    ensures { result ≡ Some (tails_of count low high) }
{
    Some(Tails { count, low, high })
}

// After a byte that no tail was due at: the rows of RFC 3629, section 4. No form is longer than it has to be, none
// is a surrogate, and none lies above U+10FFFF.
fn lead(b: u8) -> Option<Tails>
    ensures { (s : List ℕ) → goes_on result s ≡ is_utf8 (b ∷ s) }
{
    match class(b) {
        0 => due(0, 0x80, 0xBF),
        2 => due(1, 0x80, 0xBF),
        3 => due(2, 0xA0, 0xBF),
        4 => due(2, 0x80, 0xBF),
        5 => due(2, 0x80, 0x9F),
        6 => due(3, 0x90, 0xBF),
        7 => due(3, 0x80, 0xBF),
        8 => due(3, 0x80, 0x8F),
        _ => None,
    }
}

// After one more byte.
fn next(after: Tails, b: u8) -> Option<Tails>
    ensures { (s : List ℕ) → goes_on result s ≡ goes_on (Some after) (b ∷ s) }
{
    if after.count == 0 {
        return lead(b);
    }
    if b < after.low || after.high < b {
        return None;
    }
    due(after.count - 1, 0x80, 0xBF)
}

// Whether the bytes of an id are UTF-8. Most ids are ASCII, which one test of all their bits tells.
pub(crate) fn is_utf8(id: &[u8]) -> bool
    ensures { result ≡ is_utf8 id.now }
{
    if id.iter().fold(0, |bits, b| bits | *b) < 0x80 {
        return true;
    }
    let mut after = Tails {
        count: 0,
        low: 0x80,
        high: 0xBF,
    };
    for b in id {
        let Some(tails) = next(after, *b) else {
            return false;
        };
        after = tails;
    }
    after.count == 0
}
