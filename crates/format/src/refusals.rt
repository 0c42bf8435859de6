// The refusals: numbers, each with the case in which it is given.

// Why a call was refused, by its number in document 01. No function answers 0; a caller's words may say any other number of a byte.
#[derive(Clone, Copy, Debug, PartialEq, Eq)]
pub struct Refusal {
    pub number: u8,
}

// Reading, in the tag header.

// Fewer than ten bytes, or they do not begin with "ID3".
pub const NO_TAG: Refusal = Refusal { number: 1 };
// The edition is not 2.2, 2.3 or 2.4. On writing: the version or the mode is unknown.
pub const UNKNOWN_VERSION: Refusal = Refusal { number: 2 };
// One of the low four flag bits is set.
pub const UNKNOWN_FLAGS: Refusal = Refusal { number: 3 };
// A 2.2 tag that is compressed as a whole.
pub const COMPRESSED_TAG: Refusal = Refusal { number: 4 };

// Reading, in the tag header and in a frame.

// Bytes are missing: of the extended header, of a data length, or of a 2.3 body.
pub const MISSING_BYTES: Refusal = Refusal { number: 5 };
// The extended header's size is below 6.
pub const SMALL_EXTENDED_HEADER: Refusal = Refusal { number: 6 };

// Reading, in a frame.

// The id is not UTF-8.
pub const ID_NOT_UTF8: Refusal = Refusal { number: 7 };
// The frame is encrypted.
pub const ENCRYPTED: Refusal = Refusal { number: 8 };
// The frame belongs to a group.
pub const GROUPED: Refusal = Refusal { number: 9 };
// A 2.3 frame with a data length has a size below 4.
pub const SMALL_FRAME: Refusal = Refusal { number: 10 };
// A field of the body is missing.
pub const MISSING_FIELD: Refusal = Refusal { number: 11 };
// The text encoding is over 3, on reading and on writing.
pub const UNKNOWN_ENCODING: Refusal = Refusal { number: 12 };
// A frame at depth 9.
pub const TOO_DEEP: Refusal = Refusal { number: 13 };
// The part of the work buffer does not hold what is to be resynchronised.
pub const WORK_TOO_SMALL: Refusal = Refusal { number: 14 };

// Writing.

// The result is longer than the room left, or a collecting buffer is shorter than its frames.
pub const NO_ROOM: Refusal = Refusal { number: 20 };
// The id is not 3 (2.2) or 4 characters of A-Z and 0-9, or not of the record's kind.
pub const WRONG_ID: Refusal = Refusal { number: 21 };
// A 2.2 body is empty.
pub const EMPTY_BODY: Refusal = Refusal { number: 22 };
// A 2.2 body is over 16,777,215 bytes.
pub const LONG_BODY: Refusal = Refusal { number: 23 };
// A stored body, or frames and padding together, of 2^28 bytes or more; a number of 2^28 or more.
pub const TOO_LONG: Refusal = Refusal { number: 24 };
// A raw record under an id of a kind, or a record marked short or compressed.
pub const NOT_WRITABLE: Refusal = Refusal { number: 25 };
// The reader would end the text early.
pub const TEXT_ENDS_EARLY: Refusal = Refusal { number: 26 };
// The user or the element id holds a zero.
pub const ZERO_IN_NAME: Refusal = Refusal { number: 27 };
// Over 255 children, or some are given and do not end in a zero.
pub const WRONG_CHILDREN: Refusal = Refusal { number: 28 };
// The run of subframes is refused, short, padded, not used up exactly, too deep, or has a frame flagged 0002 in 2.4.
pub const WRONG_RUN: Refusal = Refusal { number: 29 };

// Lookup tables, on reading and on writing.

// A width is not 1 to 32.
pub const WRONG_WIDTH: Refusal = Refusal { number: 30 };
// The widths' sum is no multiple of 4.
pub const WIDTHS_NOT_IN_FOURS: Refusal = Refusal { number: 31 };
// The widths' sum is over 64.
pub const WIDTHS_OVER_64: Refusal = Refusal { number: 32 };

// Lookup tables, on writing.

// A deviation lacks its pair or does not fit its width, or a step of bytes or milliseconds is 2^24 or more.
pub const WRONG_DEVIATION: Refusal = Refusal { number: 33 };
// The widths sum to 4 and the references are odd in number.
pub const ODD_REFERENCES: Refusal = Refusal { number: 34 };

// Popularimeters, on reading.

// The counter does not fit 64 bits.
pub const COUNTER_TOO_LARGE: Refusal = Refusal { number: 35 };

// Raising a counter in place.

// The tag is not of the plain sort: bytes are missing, an extended header, unsynchronised bytes, a frame or subframe that is
// compressed or short, or something other than zeros after the last frame.
pub const NOT_PLAIN: Refusal = Refusal { number: 40 };
// No popularimeter of the top level has that user.
pub const USER_ABSENT: Refusal = Refusal { number: 41 };
// Two or more popularimeters of the top level have that user.
pub const USER_TWICE: Refusal = Refusal { number: 42 };
// The counter and the amount together do not fit 64 bits.
pub const SUM_TOO_LARGE: Refusal = Refusal { number: 43 };
// The new counter does not fit the counter's bytes that are there.
pub const COUNTER_TOO_SHORT: Refusal = Refusal { number: 44 };

// Editing a tag in place.

// The tag has no frame of this number.
pub const NO_SUCH_FRAME: Refusal = Refusal { number: 46 };
