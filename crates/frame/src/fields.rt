// What the headers of the three editions are read by.
ghost use Rattle.std.specs.Prelude.{◌≡◌, ◌≤◌, min, ltb};
ghost use Rattle.format.specs.Bytes.{pick};
ghost use Rattle.format.specs.Frame.{head};

use format::Head;

// How many bytes a data length takes.
pub(crate) fn length_bytes(there: bool) -> usize
    ensures { (result ≡ pick there 4 0) × (result ≤ 4) }
{
    if there { 4 } else { 0 }
}

// A frame whose body should have `size` bytes, of which no more than `left` are there.
pub(crate) fn found(
    id: u32,
    compressed: bool,
    flagged: bool,
    start: usize,
    size: usize,
    left: usize,
) -> Head
    ensures { result ≡ head id compressed flagged (ltb left size) start (min size left) }
{
    Head {
        id,
        compressed,
        flagged,
        short: left < size,
        start,
        len: size.min(left),
    }
}
