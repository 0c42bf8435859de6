// Small functions that several crates use.
ghost use Rattle.std.specs.Prelude.{◌≡◌};
ghost use Rattle.format.specs.Bytes.{has as is_set, zeros_in};

// Whether a bit is set in flags. The bit is given by its value, and none has the value 0.
pub fn has(bit: u8, flags: u8) -> bool
    ensures { result ≡ is_set bit flags }
{
    if bit == 0 {
        return false;
    }
    flags / bit % 2 == 1
}

// How many zeros there are: of names each closed by one, how many names.
// Kept: a loop, which takes a quarter of what `filter` and `count` take.
pub fn zeros_in(s: &[u8]) -> usize
    ensures { result ≡ zeros_in s.now }
{
    let mut n: usize = 0;
    for x in s {
        if *x == 0 {
            n += 1;
        }
    }
    n
}
