// The loops of resynchronising and unsynchronising: both are one edit of the bytes directly after an FF.
ghost use Rattle.std.specs.Prelude.{◌≡◌, Bool, true, false, cond, not, ◌&&◌, ◌||◌, ◌+◌, ◌-◌, ◌*◌, ◌^◌, ◌≤◌, ◌<◌, length, take, get_or, eqb, leb, ltb};
ghost use Rattle.std.proofs.Math.Seq.{slice};
ghost use Rattle.std.proofs.lemmas.List.Edits.{sets};
ghost use Rattle.format.specs.Bytes.{pick};
ghost use Rattle.unsynch.specs.Edits.{concerns, resync_by, unsync_by, Known, edited, edited_after, hits_after, stored};

use crate::blocks;
use format::Mode;

// An edit of bytes directly after an FF: of 00 where `zero` says so, of E0 to FF where `high` does.
// Such a byte gets a 00 before it where `insert` says so, else it goes.
#[derive(Clone, Copy)]
pub(crate) struct How {
    pub(crate) insert: bool,
    pub(crate) zero: bool,
    pub(crate) high: bool,
}

// The edit that resynchronises.
pub(crate) fn resync_by() -> How
    ensures { result ≡ resync_by }
{
    How {
        insert: false,
        zero: true,
        high: false,
    }
}

// The edit that unsynchronises.
pub(crate) fn unsync_by(mode: Mode) -> How
    ensures { result ≡ unsync_by mode }
{
    match mode {
        Mode::Off => How {
            insert: true,
            zero: false,
            high: false,
        },
        Mode::Crate => How {
            insert: true,
            zero: true,
            high: false,
        },
        Mode::Standard => How {
            insert: true,
            zero: true,
            high: true,
        },
    }
}

// Whether the edit concerns b; prev says that the byte before it was FF.
pub(crate) fn hit(how: How, prev: bool, b: u8) -> bool
    ensures { result ≡ (prev && concerns how b) }
{
    prev & ((how.zero & (b == 0)) | (how.high & (b >= 0xE0)))
}

// Whether b stays when it is resynchronised directly after the byte last.
fn stays(last: u8, b: u8) -> bool
    ensures { result ≡ not (eqb last 255 && eqb b 0) }
{
    !((last == 0xFF) & (b == 0))
}

// Whether b gets a 00 before it directly after the byte last: after FF, where it is 00 or above top.
fn guarded(last: u8, b: u8, top: u8) -> bool
    ensures { result ≡ (eqb last 255 && (eqb b 0 || ltb top b)) }
{
    (last == 0xFF) & ((b == 0) | (b > top))
}

// How many bytes of s after place from, up to place to, the edit concerns.
fn hits_after(s: &[u8], from: usize, to: usize, how: How) -> usize
    requires { (from < to) × (to ≤ length s.now) }
    ensures { result ≡ hits_after how s.now from to }
{
    let mut n: usize = 0;
    let blocks = (to - from - 1) / 64;
    for k in 0..blocks {
        n += blocks::hits(s, from + k * 64, how);
    }
    n + hits_by_byte(s, from + blocks * 64, to, how)
}

// The same, byte by byte.
fn hits_by_byte(s: &[u8], from: usize, to: usize, how: How) -> usize
    requires { (from < to) × (to ≤ length s.now) }
    ensures { result ≡ hits_after how s.now from to }
{
    let mut n: usize = 0;
    for k in from..to - 1 {
        n += usize::from(hit(how, s[k] == 0xFF, s[k + 1]));
    }
    n
}

// How many bytes s[from..to] has after the edit.
pub(crate) fn edited_len(s: &[u8], from: usize, to: usize, how: How) -> usize
    requires { (from < to) × (to ≤ length s.now) }
    ensures { result ≡ length (edited how false (slice from to s.now)) }
{
    let n = hits_after(s, from, to, how);
    if how.insert {
        to - from + n
    } else {
        to - from - n
    }
}

// Whether s[from..to] has at most `room` bytes after the edit. They are counted only where it depends on them.
pub(crate) fn fits(s: &[u8], from: usize, to: usize, how: How, room: usize) -> bool
    requires from_lt_to { (from < to) × (to ≤ length s.now) }
    requires known { Known how }
    ensures { result ≡ leb (length (edited how false (slice from to s.now))) room }
{
    if most(to - from, how) <= room {
        return true;
    }
    edited_len(s, from, to, how) <= room
}

// How many bytes n bytes have at most after the edit.
fn most(n: usize, how: How) -> usize
    requires { n < 2 ^ 63 }
    ensures { result ≡ pick (how.insert && how.zero) (n + n) n }
{
    if how.insert & how.zero { n + n } else { n }
}

// Stores what resynchronising makes of the bytes of s after place from, up to place to. Each turn stores: where a byte goes,
// the next one stays and takes its place. The answer is the place after what is stored.
fn drop_bytes(buf: &mut [u8], at: usize, s: &[u8], from: usize, to: usize) -> usize
    requires from_lt_to { (from < to) × (to ≤ length s.now) }
    requires to_in_bounds { at + length (edited_after resync_by s.now from to) ≤ length buf.old }
    ensures { (result, buf.new) ≡ stored (edited_after resync_by s.now from to) at buf.old }
{
    let rest = from + (to - from).saturating_sub(2);
    let mut o = at;
    for i in from..rest {
        let b = s[i + 1];
        buf[o] = b;
        o += usize::from(stays(s[i], b));
    }
    drop_last(buf, o, s, rest, to)
}

// The same of at most one byte, which is stored only where it stays.
fn drop_last(buf: &mut [u8], at: usize, s: &[u8], from: usize, to: usize) -> usize
    requires from_lt_to { (from < to) × (to ≤ from + 2) × (to ≤ length s.now) }
    requires to_in_bounds { at + length (edited_after resync_by s.now from to) ≤ length buf.old }
    ensures { (result, buf.new) ≡ stored (edited_after resync_by s.now from to) at buf.old }
{
    if from + 1 < to {
        let b = s[from + 1];
        if stays(s[from], b) {
            buf[at] = b;
            return at + 1;
        }
    }
    at
}

// As drop_bytes, eight bytes at once: those after eight bytes of which none is FF all stay, and are copied. The others go byte by byte.
fn drop_words(buf: &mut [u8], at: usize, s: &[u8], from: usize, to: usize) -> usize
    requires from_lt_to { (from < to) × (to ≤ length s.now) }
    requires to_in_bounds { at + length (edited_after resync_by s.now from to) ≤ length buf.old }
    ensures { (result, buf.new) ≡ stored (edited_after resync_by s.now from to) at buf.old }
{
    let words = (to - from - 1) / 8;
    let mut o = at;
    for k in 0..words {
        let i = from + k * 8;
        let last = i + 8;
        if blocks::any_ff(s, i, 8) {
            o = drop_bytes(buf, o, s, i, last + 1);
        } else {
            o = blocks::copy_behind(buf, o, s, i, 8);
        }
    }
    drop_bytes(buf, o, s, from + words * 8, to)
}

// Stores what the edit makes of the bytes of s after place from, up to place to, where 00, and E0 to FF with `high`, get a 00 before them.
// Each turn stores a 00 and then the byte, over it or after it. The answer is the place after what is stored.
fn insert_bytes(buf: &mut [u8], at: usize, s: &[u8], from: usize, to: usize, how: How) -> usize
    requires from_lt_to { (from < to) × (to ≤ length s.now) × (how.insert ≡ true) × (how.zero ≡ true) }
    requires to_in_bounds { at + length (edited_after how s.now from to) ≤ length buf.old }
    ensures { (result, buf.new) ≡ stored (edited_after how s.now from to) at buf.old }
{
    let top = if how.high { 0xDF } else { 0xFF };
    let mut o = at;
    for i in from..to - 1 {
        let b = s[i + 1];
        let p = o + usize::from(guarded(s[i], b, top));
        buf[o] = 0;
        buf[p] = b;
        o = p + 1;
    }
    o
}

// Stores what the edit makes of the bytes of s after place from, up to place to. The answer is the place after what is stored.
// A block that the edit leaves alone is copied. From one that it changes on, bytes are edited one by one, twice as many each time in a row.
fn edit_after(buf: &mut [u8], at: usize, s: &[u8], from: usize, to: usize, how: How) -> usize
    requires from_lt_to { (from < to) × (to ≤ length s.now) }
    requires to_in_bounds { at + length (edited_after how s.now from to) ≤ length buf.old }
    requires known { Known how }
    ensures { (result, buf.new) ≡ stored (edited_after how s.now from to) at buf.old }
{
    let mut o = at;
    let mut i = from;
    let mut run: usize = 64;
    // Kept: a turn goes 64 bytes on, or as many as the turns before it tell; no range and no chunks of a slice have these turns.
    while i + 64 < to {
        if blocks::hits(s, i, how) == 0 {
            o = blocks::copy_behind(buf, o, s, i, 64);
            i += 64;
            run = 64;
        } else {
            let last = i + (to - i - 1).min(run);
            o = edit_by_byte(buf, o, s, i, last + 1, how);
            i = last;
            run = (run + run).min(1024);
        }
    }
    edit_by_byte(buf, o, s, i, to, how)
}

// The same without blocks: each kind of edit has its own loop, and one that concerns no byte is a copy.
fn edit_by_byte(buf: &mut [u8], at: usize, s: &[u8], from: usize, to: usize, how: How) -> usize
    requires from_lt_to { (from < to) × (to ≤ length s.now) }
    requires to_in_bounds { at + length (edited_after how s.now from to) ≤ length buf.old }
    requires known { Known how }
    ensures { (result, buf.new) ≡ stored (edited_after how s.now from to) at buf.old }
{
    if how.insert {
        if how.zero {
            return insert_bytes(buf, at, s, from, to, how);
        }
        let end = at + (to - from - 1);
        buf[at..end].copy_from_slice(&s[from + 1..to]);
        return end;
    }
    drop_words(buf, at, s, from, to)
}

// Stores s[from..to], edited, from `at` on. The answer is the place after what is stored. An edit that concerns no byte is one copy.
pub(crate) fn edit(buf: &mut [u8], at: usize, s: &[u8], from: usize, to: usize, how: How) -> usize
    requires from_lt_to { (from < to) × (to ≤ length s.now) }
    requires s_in_bounds { at + length (edited how false (slice from to s.now)) ≤ length buf.old }
    requires known { Known how }
    ensures { (result, buf.new) ≡ stored (edited how false (slice from to s.now)) at buf.old }
{
    buf[at] = s[from];
    let next = at + 1;
    if how.zero {
        return edit_after(buf, next, s, from, to, how);
    }
    edit_by_byte(buf, next, s, from, to, how)
}

// The same in one area: area[from..to], edited, is stored from `at` on, after it.
pub(crate) fn edit_in(area: &mut [u8], at: usize, from: usize, to: usize, how: How) -> usize
    requires from_lt_to { (from < to) × (to ≤ at) }
    requires area_in_bounds { at + length (edited how false (slice from to area.old)) ≤ length area.old }
    requires known { Known how }
    ensures { (result, area.new) ≡ stored (edited how false (slice from to area.old)) at area.old }
{
    area[at] = area[from];
    edit_in_after(area, at + 1, from, to, how)
}

// As edit_after in one area, chunk by chunk.
fn edit_in_after(area: &mut [u8], at: usize, from: usize, to: usize, how: How) -> usize
    requires from_lt_to { (from < to) × (to ≤ at) }
    requires to_in_bounds { at + length (edited_after how area.old from to) ≤ length area.old }
    requires known { Known how }
    ensures { (result, area.new) ≡ stored (edited_after how area.old from to) at area.old }
{
    let chunks = (to - from - 1).div_ceil(1024);
    let mut o = at;
    for k in 0..chunks {
        let i = from + k * 1024;
        let last = i + (to - i - 1).min(1024);
        o = edit_chunk(area, o, i, last + 1, how);
    }
    o
}

// Stores what the edit makes of the bytes of an area after place from, up to place to, by way of a copy of them.
fn edit_chunk(area: &mut [u8], at: usize, from: usize, to: usize, how: How) -> usize
    requires from_lt_to { (from < to) × (to ≤ from + 1025) × (to ≤ length area.old) }
    requires to_in_bounds { at + length (edited_after how area.old from to) ≤ length area.old }
    requires known { Known how }
    ensures { (result, area.new) ≡ stored (edited_after how area.old from to) at area.old }
{
    let mut chunk = [0u8; 1025];
    let n = to - from;
    chunk[..n].copy_from_slice(&area[from..to]);
    edit_after(area, at, &chunk, 0, n, how)
}
