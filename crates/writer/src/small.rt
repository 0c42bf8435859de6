// The numbers of a record as the few bytes that stand between its name and its names.
ghost use Rattle.std.specs.Prelude.{◌≡◌, ℕ, ◌+◌, ◌≤◌, List, [], ◌∷◌, ◌++◌, length, take};
ghost use Rattle.format.specs.Bytes.{zeros_in};
ghost use Rattle.format.specs.Numbers.{bytes_of};
ghost use Rattle.format.specs.Popularimeter.{counter_bytes};
ghost use Rattle.format.specs.Chapter.{flag_byte};
ghost use Rattle.format.specs.Record.{content_of};
ghost use Rattle.writer.specs.Layouts.{layout_of};
ghost use Rattle.writer.specs.Smalls.{Holds};

use crate::counter::put_counter;
use crate::numbers::put_digits;
use format::Fields;

// At most 17 bytes: the first `len`.
#[derive(Drop)]
pub(crate) struct Small {
    pub(crate) bytes: [u8; 17],
    pub(crate) len: usize,
}

// A text's encoding.
fn text(encoding: u8) -> Small
    ensures { Holds result (encoding ∷ []) }
{
    let mut bytes = [0u8; 17];
    bytes[0] = encoding;
    Small { bytes, len: 1 }
}

// The zero after the user, rating and counter.
#[tactic(auto, using(crate::proofs::Digits::counter_small))]
fn popularimeter(rating: u8, counter: u64) -> Small
    ensures { Holds result (0 ∷ rating ∷ counter_bytes counter) }
{
    let mut bytes = [0u8; 17];
    bytes[1] = rating;
    let count = put_counter(&mut bytes, 2, counter);
    Small {
        bytes,
        len: 2 + count,
    }
}

// The ten bytes before a table's references.
#[tactic(auto, unfolding(format::specs::Numbers::digits))]
fn table(frames: u16, step: u32, millis: u32, v: u8, w: u8) -> Small
    ensures { Holds result (bytes_of 2 frames ++ (bytes_of 3 step ++ (bytes_of 3 millis ++ (v ∷ w ∷ [])))) }
{
    let mut bytes = [0u8; 17];
    put_digits(&mut bytes, 0, 2, u64::from(frames));
    put_digits(&mut bytes, 2, 3, u64::from(step));
    put_digits(&mut bytes, 5, 3, u64::from(millis));
    bytes[8] = v;
    bytes[9] = w;
    Small { bytes, len: 10 }
}

// The zero after the element id and the four numbers.
#[tactic(auto, unfolding(format::specs::Numbers::digits))]
fn chapter(start_time: u32, end_time: u32, start_offset: u32, end_offset: u32) -> Small
    ensures { Holds result (0 ∷ bytes_of 4 start_time ++ (bytes_of 4 end_time ++ (bytes_of 4 start_offset ++ bytes_of 4 end_offset))) }
{
    let mut bytes = [0u8; 17];
    put_digits(&mut bytes, 1, 4, u64::from(start_time));
    put_digits(&mut bytes, 5, 4, u64::from(end_time));
    put_digits(&mut bytes, 9, 4, u64::from(start_offset));
    put_digits(&mut bytes, 13, 4, u64::from(end_offset));
    Small { bytes, len: 17 }
}

// A table of contents' flags: 2 top level, 1 ordered.
fn flags(top_level: bool, ordered: bool) -> u8
    ensures { result ≡ flag_byte top_level ordered }
{
    2 * u8::from(top_level) + u8::from(ordered)
}

// The zero after the element id, flags and child count.
fn contents(top_level: bool, ordered: bool, children: usize) -> Small
    requires { children ≤ 255 }
    ensures { Holds result (0 ∷ flag_byte top_level ordered ∷ children ∷ []) }
{
    let mut bytes = [0u8; 17];
    bytes[1] = flags(top_level, ordered);
    bytes[2] = children as u8;
    Small { bytes, len: 3 }
}

// Nothing.
fn none() -> Small
    ensures { Holds result [] }
{
    Small {
        bytes: [0u8; 17],
        len: 0,
    }
}

// The bytes of a record's fields; `children` is how many names it has.
pub(crate) fn small_of(fields: Fields, children: usize) -> Small
    requires { children ≤ 255 }
    ensures { (name names rest ds : List ℕ) → zeros_in (layout_of (content_of fields name names rest ds)).names ≡ children → Holds result (layout_of (content_of fields name names rest ds)).small }
{
    match fields {
        Fields::Text { encoding } => text(encoding),
        Fields::Popularimeter { rating, counter } => popularimeter(rating, counter),
        Fields::Table {
            frames,
            bytes,
            millis,
            bits_for_bytes,
            bits_for_millis,
        } => table(frames, bytes, millis, bits_for_bytes, bits_for_millis),
        Fields::Chapter {
            start_time,
            end_time,
            start_offset,
            end_offset,
        } => chapter(start_time, end_time, start_offset, end_offset),
        Fields::Contents { top_level, ordered } => contents(top_level, ordered, children),
        Fields::Raw => none(),
    }
}
