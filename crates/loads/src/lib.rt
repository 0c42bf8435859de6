// Numbers of several bytes, by one load where the bytes around them are there.
#![tactic(auto)]

ghost use Rattle.std.specs.Prelude.{◌≡◌, true, ◌+◌, ◌-◌, ◌*◌, ◌/◌, ◌%◌, ◌^◌, ◌≤◌, ◌<◌, min, length, take};
ghost use Rattle.std.proofs.Math.Seq.{slice};
ghost use Rattle.format.specs.Numbers.{number};
ghost use Rattle.loads.specs.Loads.{Little, Near};

// Four bytes from `at` on as one number, the first lowest: one load.
fn little(s: &[u8], at: usize) -> u32
    requires { at + 4 ≤ length s.now }
    ensures { Little at s.now result }
{
    u32::from(s[at])
        + u32::from(s[at + 1]) * 0x100
        + u32::from(s[at + 2]) * 0x1_0000
        + u32::from(s[at + 3]) * 0x100_0000
}

// The bytes of a number in the other order: one instruction.
fn swapped(w: u32) -> u32
    ensures { result ≡ w / 0x1000000 + w / 0x10000 % 0x100 * 0x100 + w / 0x100 % 0x100 * 0x10000 + w % 0x100 * 0x1000000 }
{
    w / 0x100_0000
        + w / 0x1_0000 % 0x100 * 0x100
        + w / 0x100 % 0x100 * 0x1_0000
        + w % 0x100 * 0x100_0000
}

// The number that four bytes from `at` on make: one load.
fn read_whole(s: &[u8], at: usize) -> u32
    requires { at + 4 ≤ length s.now }
    ensures { result ≡ number (slice at (at + 4) s.now) }
{
    swapped(little(s, at))
}

// The number that the last bytes from `at` on make, fewer than four.
fn read_cut(s: &[u8], at: usize) -> u32
    requires { length s.now < at + 4 }
    ensures { result ≡ number (slice at (at + 4) s.now) }
{
    if s.len() <= at {
        return 0;
    }
    let one = u32::from(s[at]);
    if s.len() - at == 1 {
        return one;
    }
    let two = one * 256 + u32::from(s[at + 1]);
    if s.len() - at == 2 {
        return two;
    }
    two * 256 + u32::from(s[at + 2])
}

// The number that four bytes from `at` on make, or the fewer that are there.
pub fn read32(s: &[u8], at: usize) -> u32
    ensures { result ≡ number (slice at (at + 4) s.now) }
{
    if s.len() < 4 {
        return read_cut(s, at);
    }
    if s.len() - 4 < at {
        return read_cut(s, at);
    }
    read_whole(s, at)
}

// The number that eight bytes from `at` on make: one load.
fn read_eight(s: &[u8], at: usize) -> u64
    requires { at + 8 ≤ length s.now }
    ensures { result ≡ number (slice at (at + 8) s.now) }
{
    u64::from(read_whole(s, at)) * 0x1_0000_0000 + u64::from(read_whole(s, at + 4))
}

// The number that the last `few` bytes before `to` make: one load of eight.
fn read_last(s: &[u8], to: usize, few: usize) -> u64
    requires { (8 ≤ to) × (to ≤ length s.now) × (0 < few) × (few ≤ 8) }
    ensures { result ≡ number (slice (to - few) to s.now) }
{
    let away = 64 - few * 8;
    (read_eight(s, to - 8) << away) >> away
}

// The number that the bytes of a part make, of more than `most` bytes the first `most`.
fn read_some(s: &[u8], from: usize, to: usize, most: usize) -> u64
    requires { most ≤ 8 }
    ensures { (result ≡ number (take most (slice from to s.now))) × (result < 256 ^ most) }
{
    let end = to.min(s.len());
    let start = from.min(end);
    let few = (end - start).min(most);
    let mut n: u64 = 0;
    for x in &s[start..start + few] {
        n = n * 256 + u64::from(*x);
    }
    n
}

// The same, of more than eight bytes the first eight.
pub fn read_few(s: &[u8], from: usize, to: usize, most: usize) -> u64
    ensures { (result ≡ number (take (min most 8) (slice from to s.now))) × (result < 256 ^ min most 8) }
{
    read_some(s, from, to, most.min(8))
}

// Whether a part of a slice of `len` bytes has one to eight bytes, and eight bytes end where it ends.
fn is_near(len: usize, from: usize, to: usize) -> bool
    ensures { result ≡ true → Near len from to }
{
    if to <= len {
        if 8 <= to {
            if from < to {
                return to - from <= 8;
            }
        }
    }
    false
}

// The number that the bytes of a part make, of more than eight bytes the first eight.
pub fn read64(s: &[u8], from: usize, to: usize) -> u64
    ensures { result ≡ number (take 8 (slice from to s.now)) }
{
    if is_near(s.len(), from, to) {
        return read_last(s, to, to - from);
    }
    read_some(s, from, to, 8)
}
