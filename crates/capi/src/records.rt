// Records, loaded from words and stored there. What each word means stands in specs/Words.antt.
ghost use Rattle.std.specs.Prelude.{◌≡◌, ◌≤◌, length};
ghost use Rattle.std.proofs.lemmas.List.Edits.{sets};
ghost use Rattle.capi.specs.Words.{numbers_of, heading_list, place_list, record_words, cap8 as cap8Of, cap32 as cap32Of, text_if, popularimeter_if, table_if, chapter_if, contents_if, fields_in, heading_of, heading_in};

use crate::places;
use crate::words::flag_in;
use format::{Fields, Heading, Record};

// A kind and its five numbers.
#[derive(Default, Drop)]
pub struct Numbers {
    pub kind: u64,
    pub a: u64,
    pub b: u64,
    pub c: u64,
    pub d: u64,
    pub e: u64,
}

// ---- records to words

// The kind of fields and their numbers, 0 for those that the kind lacks.
fn numbers_of(fields: Fields) -> Numbers
    ensures { result ≡ numbers_of fields }
{
    match fields {
        Fields::Text { encoding } => Numbers {
            kind: places::KIND_TEXT,
            a: u64::from(encoding),
            ..Numbers::default()
        },
        Fields::Popularimeter { rating, counter } => Numbers {
            kind: places::KIND_POPULARIMETER,
            a: u64::from(rating),
            b: counter,
            ..Numbers::default()
        },
        Fields::Table {
            frames,
            bytes,
            millis,
            bits_for_bytes,
            bits_for_millis,
        } => Numbers {
            kind: places::KIND_TABLE,
            a: u64::from(frames),
            b: u64::from(bytes),
            c: u64::from(millis),
            d: u64::from(bits_for_bytes),
            e: u64::from(bits_for_millis),
        },
        Fields::Chapter {
            start_time,
            end_time,
            start_offset,
            end_offset,
        } => Numbers {
            kind: places::KIND_CHAPTER,
            a: u64::from(start_time),
            b: u64::from(end_time),
            c: u64::from(start_offset),
            d: u64::from(end_offset),
            ..Numbers::default()
        },
        Fields::Contents { top_level, ordered } => Numbers {
            kind: places::KIND_CONTENTS,
            a: u64::from(top_level),
            b: u64::from(ordered),
            ..Numbers::default()
        },
        Fields::Raw => Numbers {
            kind: places::KIND_RAW,
            ..Numbers::default()
        },
    }
}

// Puts what a record is into words.
fn store_heading(words: &mut [u64], h: Heading)
    requires { 19 ≤ length words.old }
    ensures { words.new ≡ sets words.old 0 (heading_list h) }
{
    let n = numbers_of(h.fields);
    words[places::RECORD_KIND] = n.kind;
    words[places::RECORD_ID] = u64::from(h.id);
    words[places::RECORD_SHORT] = u64::from(h.short);
    words[places::RECORD_COMPRESSED] = u64::from(h.compressed);
    words[places::RECORD_A] = n.a;
    words[places::RECORD_B] = n.b;
    words[places::RECORD_C] = n.c;
    words[places::RECORD_D] = n.d;
    words[places::RECORD_E] = n.e;
}

// Puts where a record lies into words.
fn store_places(words: &mut [u64], r: Record)
    requires { 19 ≤ length words.old }
    ensures { words.new ≡ sets words.old 9 (place_list r) }
{
    words[places::RECORD_AT] = r.at as u64;
    words[places::RECORD_IN_WORK] = u64::from(r.in_work);
    words[places::RECORD_BODY_START] = r.body.start as u64;
    words[places::RECORD_BODY_LEN] = r.body.len as u64;
    words[places::RECORD_NAME_START] = r.name.start as u64;
    words[places::RECORD_NAME_LEN] = r.name.len as u64;
    words[places::RECORD_NAMES_START] = r.names.start as u64;
    words[places::RECORD_NAMES_LEN] = r.names.len as u64;
    words[places::RECORD_REST_START] = r.rest.start as u64;
    words[places::RECORD_REST_LEN] = r.rest.len as u64;
}

// Puts a record into words.
#[tactic(auto, unfolding(crate::specs::Words::record_words))]
pub(crate) fn store_record(words: &mut [u64], r: Record)
    requires { 19 ≤ length words.old }
    ensures { words.new ≡ record_words r words.old }
{
    store_heading(words, r.heading);
    store_places(words, r);
}

// ---- words to headings

// A number, or the largest of 8 bits where it is beyond them.
fn cap8(n: u64) -> u8
    ensures { result ≡ cap8Of n }
{
    u8::try_from(n).unwrap_or(u8::MAX)
}

// A number, or the largest of 32 bits where it is beyond them.
// Kept: a twin of cap8; both names stand in specs/Words.antt.
fn cap32(n: u64) -> u32
    ensures { result ≡ cap32Of n }
{
    u32::try_from(n).unwrap_or(u32::MAX)
}

// A text with its encoding.
fn text_fields(encoding: u64) -> Option<Fields>
    ensures { result ≡ text_if encoding }
{
    Some(Fields::Text {
        encoding: cap8(encoding),
    })
}

// A popularimeter with its rating and counter.
fn popularimeter_fields(rating: u64, counter: u64) -> Option<Fields>
    ensures { result ≡ popularimeter_if rating counter }
{
    Some(Fields::Popularimeter {
        rating: u8::try_from(rating).ok()?,
        counter,
    })
}

// A table with its steps and widths.
fn table_fields(frames: u64, bytes: u64, millis: u64, v: u64, w: u64) -> Option<Fields>
    ensures { result ≡ table_if frames bytes millis v w }
{
    Some(Fields::Table {
        frames: u16::try_from(frames).ok()?,
        bytes: cap32(bytes),
        millis: cap32(millis),
        bits_for_bytes: cap8(v),
        bits_for_millis: cap8(w),
    })
}

// A chapter with its times and offsets.
fn chapter_fields(
    start_time: u64,
    end_time: u64,
    start_offset: u64,
    end_offset: u64,
) -> Option<Fields>
    ensures { result ≡ chapter_if start_time end_time start_offset end_offset }
{
    Some(Fields::Chapter {
        start_time: u32::try_from(start_time).ok()?,
        end_time: u32::try_from(end_time).ok()?,
        start_offset: u32::try_from(start_offset).ok()?,
        end_offset: u32::try_from(end_offset).ok()?,
    })
}

// A table of contents with its two marks.
fn contents_fields(top_level: u64, ordered: u64) -> Option<Fields>
    ensures { result ≡ contents_if top_level ordered }
{
    Some(Fields::Contents {
        top_level: flag_in(top_level)?,
        ordered: flag_in(ordered)?,
    })
}

// The fields that words say.
#[tactic(auto, unfolding(crate::specs::Words::fields_of))]
fn load_fields(words: &[u64]) -> Option<Fields>
    requires { 19 ≤ length words.now }
    ensures { result ≡ fields_in words.now }
{
    match words[places::RECORD_KIND] {
        places::KIND_TEXT => text_fields(words[places::TEXT_ENCODING]),
        places::KIND_POPULARIMETER => popularimeter_fields(
            words[places::POPULARIMETER_RATING],
            words[places::POPULARIMETER_COUNTER],
        ),
        places::KIND_TABLE => table_fields(
            words[places::TABLE_FRAMES],
            words[places::TABLE_BYTES],
            words[places::TABLE_MILLIS],
            words[places::TABLE_BITS_FOR_BYTES],
            words[places::TABLE_BITS_FOR_MILLIS],
        ),
        places::KIND_CHAPTER => chapter_fields(
            words[places::CHAPTER_START_TIME],
            words[places::CHAPTER_END_TIME],
            words[places::CHAPTER_START_OFFSET],
            words[places::CHAPTER_END_OFFSET],
        ),
        places::KIND_CONTENTS => contents_fields(
            words[places::CONTENTS_TOP_LEVEL],
            words[places::CONTENTS_ORDERED],
        ),
        places::KIND_RAW => Some(Fields::Raw),
        _ => None,
    }
}

// The heading that words say.
#[tactic(auto, unfolding(crate::specs::Words::heading_of))]
pub(crate) fn load_heading(words: &[u64]) -> Option<Heading>
    requires { 19 ≤ length words.now }
    ensures { result ≡ heading_of words.now }
{
    Some(Heading {
        id: u32::try_from(words[places::RECORD_ID]).ok()?,
        short: words[places::RECORD_SHORT] != 0,
        compressed: words[places::RECORD_COMPRESSED] != 0,
        fields: load_fields(words)?,
    })
}

// The heading that words say. Words that are no record stand for one whose id no edition has: adding refuses it with 21.
pub(crate) fn heading_in(words: &[u64]) -> Heading
    requires { 19 ≤ length words.now }
    ensures { result ≡ heading_in words.now }
{
    load_heading(words).unwrap_or(Heading {
        id: 0,
        short: false,
        compressed: false,
        fields: Fields::Raw,
    })
}
