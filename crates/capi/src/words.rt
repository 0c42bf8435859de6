// Headers, readers and writers, loaded from words and stored there. What each word means stands in specs/Words.antt.
ghost use Rattle.std.specs.Prelude.{◌≡◌, ◌≤◌, length};
ghost use Rattle.capi.specs.Words.{flag_in, stop_number, failure, stop_in, header_words, is_reader, reader_words, reader_of, writer_words, writer_of};

use crate::places;
use format::refusals::Refusal;
use format::{Mode, Version};
use reader::{Header, Reader, Stop};
use writer::Writer;

// ---- single words

// No or yes, if a word says it by 0 or 1.
pub(crate) fn flag_in(n: u64) -> Option<bool>
    ensures { result ≡ flag_in n }
{
    match n {
        0 => Some(false),
        1 => Some(true),
        _ => None,
    }
}

// ---- headers

// Puts a header into words.
#[tactic(auto, unfolding(crate::specs::Words::header_words))]
pub(crate) fn store_header(words: &mut [u64], h: Header)
    requires { 4 ≤ length words.old }
    ensures { words.new ≡ header_words h words.old }
{
    words[places::HEADER_VERSION] = u64::from(u8::from(h.version));
    words[places::HEADER_FLAGS] = u64::from(h.flags);
    words[places::HEADER_SIZE] = h.size as u64;
    words[places::HEADER_EXT] = h.ext as u64;
}

// ---- readers

// How a reader has stopped, as two numbers: whether it runs, has ended or was refused, and the refusal's number, 0 for none.
fn stop_numbers(stop: Stop) -> (u64, u64)
    ensures { result ≡ (stop_number stop, failure stop) }
{
    match stop {
        Stop::Running => (places::STOP_RUNNING, 0),
        Stop::Ended => (places::STOP_ENDED, 0),
        Stop::Failed(k) => (places::STOP_REFUSED, u64::from(k.number)),
    }
}

// How a reader has stopped, if two words say it: a refusal has a number, and nothing else has.
fn stop_in(stop: u64, number: u64) -> Option<Stop>
    ensures { result ≡ stop_in stop number }
{
    match (stop, number) {
        (places::STOP_RUNNING, 0) => Some(Stop::Running),
        (places::STOP_ENDED, 0) => Some(Stop::Ended),
        (places::STOP_REFUSED, 1..=255) => Some(Stop::Failed(Refusal {
            number: number as u8,
        })),
        _ => None,
    }
}

// Whether the words that are not places are those of a reader.
pub(crate) fn is_reader(version: u64, in_work: u64, stop: u64, number: u64) -> bool
    ensures { result ≡ is_reader version in_work stop number }
{
    Version::try_from(version).is_ok() & ((in_work <= 1) & stop_in(stop, number).is_some())
}

// The reader that words say.
#[tactic(auto, unfolding(crate::specs::Words::reader_of))]
pub(crate) fn load_reader(words: &[u64]) -> Option<Reader>
    requires { 7 ≤ length words.now }
    ensures { result ≡ reader_of words.now }
{
    Some(Reader {
        version: Version::try_from(words[places::READER_VERSION]).ok()?,
        in_work: flag_in(words[places::READER_IN_WORK])?,
        begin: words[places::READER_BEGIN] as usize,
        at: words[places::READER_AT] as usize,
        end: words[places::READER_END] as usize,
        stop: stop_in(words[places::READER_STOP], words[places::READER_NUMBER])?,
    })
}

// Puts a reader into words.
#[tactic(auto, unfolding(crate::specs::Words::reader_words))]
pub(crate) fn store_reader(words: &mut [u64], r: Reader)
    requires { 7 ≤ length words.old }
    ensures { words.new ≡ reader_words r words.old }
{
    let (stop, number) = stop_numbers(r.stop);
    words[places::READER_VERSION] = u64::from(u8::from(r.version));
    words[places::READER_IN_WORK] = u64::from(r.in_work);
    words[places::READER_BEGIN] = r.begin as u64;
    words[places::READER_AT] = r.at as u64;
    words[places::READER_END] = r.end as u64;
    words[places::READER_STOP] = stop;
    words[places::READER_NUMBER] = number;
}

// ---- writers

// The writer that words say.
#[tactic(auto, unfolding(crate::specs::Words::writer_of))]
pub(crate) fn load_writer(words: &[u64]) -> Option<Writer>
    requires { 4 ≤ length words.now }
    ensures { result ≡ writer_of words.now }
{
    Some(Writer {
        version: Version::try_from(words[places::WRITER_VERSION]).ok()?,
        mode: Mode::try_from(words[places::WRITER_MODE]).ok()?,
        altered: flag_in(words[places::WRITER_ALTERED])?,
        used: words[places::WRITER_USED] as usize,
    })
}

// Puts a writer into words.
#[tactic(auto, unfolding(crate::specs::Words::writer_words))]
pub(crate) fn store_writer(words: &mut [u64], w: Writer)
    requires { 4 ≤ length words.old }
    ensures { words.new ≡ writer_words w words.old }
{
    words[places::WRITER_VERSION] = u64::from(u8::from(w.version));
    words[places::WRITER_MODE] = u64::from(u8::from(w.mode));
    words[places::WRITER_ALTERED] = u64::from(w.altered);
    words[places::WRITER_USED] = w.used as u64;
}
