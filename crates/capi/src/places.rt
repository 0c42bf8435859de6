// The places of words, how many there are of each, and the numbers that some of them take. include/streamvault.h has the same
// names with SV_ in front, and says what lies there; rust/tests/declarations.rs compares them.

// ---- a header

pub(crate) const HEADER_WORDS: usize = 4;

pub(crate) const HEADER_VERSION: usize = 0;

pub(crate) const HEADER_FLAGS: usize = 1;

pub(crate) const HEADER_SIZE: usize = 2;

pub(crate) const HEADER_EXT: usize = 3;

// ---- a reader

pub(crate) const READER_WORDS: usize = 7;

pub(crate) const READER_VERSION: usize = 0;

pub(crate) const READER_IN_WORK: usize = 1;

pub(crate) const READER_BEGIN: usize = 2;

pub(crate) const READER_AT: usize = 3;

pub(crate) const READER_END: usize = 4;

pub(crate) const READER_STOP: usize = 5;

pub(crate) const READER_NUMBER: usize = 6;

// ---- whether a reader or a meter goes on

pub(crate) const STOP_RUNNING: u64 = 0;

pub(crate) const STOP_ENDED: u64 = 1;

pub(crate) const STOP_REFUSED: u64 = 2;

// ---- a meter: those of a reader, and what it passed

pub(crate) const METER_WORDS: usize = 11;

pub(crate) const METER_VERSION: usize = 0;

pub(crate) const METER_IN_WORK: usize = 1;

pub(crate) const METER_BEGIN: usize = 2;

pub(crate) const METER_AT: usize = 3;

pub(crate) const METER_END: usize = 4;

pub(crate) const METER_STOP: usize = 5;

pub(crate) const METER_NUMBER: usize = 6;

pub(crate) const METER_FRAMES: usize = 7;

pub(crate) const METER_SHORT: usize = 8;

pub(crate) const METER_COMPRESSED: usize = 9;

pub(crate) const METER_MISSING: usize = 10;

// ---- a popularimeter that was metered

pub(crate) const METERED_WORDS: usize = 6;

pub(crate) const METERED_IN_WORK: usize = 0;

pub(crate) const METERED_USER_START: usize = 1;

pub(crate) const METERED_USER_LEN: usize = 2;

pub(crate) const METERED_RATING: usize = 3;

pub(crate) const METERED_COUNTER: usize = 4;

pub(crate) const METERED_FRAME: usize = 5;

// ---- a record

pub(crate) const RECORD_WORDS: usize = 19;

pub(crate) const RECORD_KIND: usize = 0;

pub(crate) const RECORD_ID: usize = 1;

pub(crate) const RECORD_SHORT: usize = 2;

pub(crate) const RECORD_COMPRESSED: usize = 3;

pub(crate) const RECORD_A: usize = 4;

pub(crate) const RECORD_B: usize = 5;

pub(crate) const RECORD_C: usize = 6;

pub(crate) const RECORD_D: usize = 7;

pub(crate) const RECORD_E: usize = 8;

pub(crate) const RECORD_AT: usize = 9;

pub(crate) const RECORD_IN_WORK: usize = 10;

pub(crate) const RECORD_BODY_START: usize = 11;

pub(crate) const RECORD_BODY_LEN: usize = 12;

pub(crate) const RECORD_NAME_START: usize = 13;

pub(crate) const RECORD_NAME_LEN: usize = 14;

pub(crate) const RECORD_NAMES_START: usize = 15;

pub(crate) const RECORD_NAMES_LEN: usize = 16;

pub(crate) const RECORD_REST_START: usize = 17;

pub(crate) const RECORD_REST_LEN: usize = 18;

// ---- the numbers of a record, by its kind

pub(crate) const TEXT_ENCODING: usize = 4;

pub(crate) const POPULARIMETER_RATING: usize = 4;

pub(crate) const POPULARIMETER_COUNTER: usize = 5;

pub(crate) const TABLE_FRAMES: usize = 4;

pub(crate) const TABLE_BYTES: usize = 5;

pub(crate) const TABLE_MILLIS: usize = 6;

pub(crate) const TABLE_BITS_FOR_BYTES: usize = 7;

pub(crate) const TABLE_BITS_FOR_MILLIS: usize = 8;

pub(crate) const CHAPTER_START_TIME: usize = 4;

pub(crate) const CHAPTER_END_TIME: usize = 5;

pub(crate) const CHAPTER_START_OFFSET: usize = 6;

pub(crate) const CHAPTER_END_OFFSET: usize = 7;

pub(crate) const CONTENTS_TOP_LEVEL: usize = 4;

pub(crate) const CONTENTS_ORDERED: usize = 5;

// ---- the kinds of records

pub(crate) const KIND_TEXT: u64 = 0;

pub(crate) const KIND_POPULARIMETER: u64 = 1;

pub(crate) const KIND_TABLE: u64 = 2;

pub(crate) const KIND_CHAPTER: u64 = 3;

pub(crate) const KIND_CONTENTS: u64 = 4;

pub(crate) const KIND_RAW: u64 = 5;

// ---- a writer

pub(crate) const WRITER_WORDS: usize = 4;

pub(crate) const WRITER_VERSION: usize = 0;

pub(crate) const WRITER_MODE: usize = 1;

pub(crate) const WRITER_ALTERED: usize = 2;

pub(crate) const WRITER_USED: usize = 3;

// ---- a count

pub(crate) const COUNT_WORDS: usize = 1;

// ---- a counter that was raised

pub(crate) const COUNTER_WORDS: usize = 1;
