// The functions that include/streamvault.h declares, for Rattle: capi_c exports them to C and Rust. State and records lie in
// words that the caller lends. What each call answers and leaves stands in specs/Calls.antt.
#![tactic(auto)]

mod meters;
mod places;
mod records;
mod words;

ghost use Rattle.std.specs.Prelude.{◌≡◌, ◌≤◌, length};
ghost use Rattle.capi.specs.Calls.{sv_header, sv_open, sv_step, after_begin, sv_begin, sv_begin_plain, sv_add, sv_finish, references_of, sv_references};
ghost use Rattle.capi.specs.Meters.{sv_meter_open, sv_meter_next};
ghost use Rattle.capi.specs.Raises.{after_raised, sv_raise};
ghost use Rattle.capi.specs.Edits.{edit_number, sv_replace, sv_remove, sv_append, sv_lift};

use crate::meters::{answered, is_running, running, stopped, store_opened};
use crate::records::{heading_in, load_heading, store_record};
use crate::words::{flag_in, load_reader, load_writer, store_header, store_reader, store_writer};
use format::refusals::{NO_ROOM, Refusal, UNKNOWN_VERSION, WRONG_ID};
use format::{Fields, Given, Version};
use frame::table::unpack;
use writer::Writer;

// Fewer words than a call takes.
const SHORT: u32 = NO_ROOM.number as u32;

// Words that are no state of a reader, a meter or a writer.
const NO_STATE: u32 = UNKNOWN_VERSION.number as u32;

// Words that are no record.
const NO_RECORD: u32 = WRONG_ID.number as u32;

// The end of a tag's frames, or of its popularimeters.
const END: u32 = 256;

// The count of a refused call.
const NONE: u64 = 0;

// The number of a refusal.
fn code(k: Refusal) -> u32
    ensures { result ≡ k.number }
{
    u32::from(k.number)
}

// Reads the header of a tag into four words: version, flags, size, ext.
#[tactic(auto, unfolding(crate::specs::Calls::sv_header))]
pub fn sv_header(tag: &[u8], header: &mut [u64]) -> u32
    ensures { (result, header.new) ≡ sv_header tag.now header.old }
{
    if header.len() < places::HEADER_WORDS {
        return SHORT;
    }
    match reader::headers::header(tag) {
        Ok(h) => {
            store_header(header, h);
            0
        }
        Err(k) => code(k),
    }
}

// Opens a tag: the reader's words then say a reader at the first frame.
#[tactic(auto, unfolding(crate::specs::Calls::sv_open))]
pub fn sv_open(tag: &[u8], work: &mut [u8], reader: &mut [u64]) -> u32
    ensures { (result, work.new, reader.new) ≡ sv_open tag.now work.old reader.old }
{
    if reader.len() < places::READER_WORDS {
        return SHORT;
    }
    match reader::opening::open(work, tag) {
        Ok(r) => {
            store_reader(reader, r);
            0
        }
        Err(k) => code(k),
    }
}

// Reads the next frame into the record's words. The reader's words then say the moved reader, or why it has stopped.
#[tactic(auto, unfolding(crate::specs::Calls::sv_step))]
pub fn sv_step(tag: &[u8], work: &mut [u8], reader: &mut [u64], record: &mut [u64]) -> u32
    ensures { (result, work.new, reader.new, «record».new) ≡ sv_step tag.now work.old reader.old «record».old }
{
    if (reader.len() < places::READER_WORDS) | (record.len() < places::RECORD_WORDS) {
        return SHORT;
    }
    let Some(r) = load_reader(reader) else {
        return NO_STATE;
    };
    let (step, moved) = r.step(work, tag);
    store_reader(reader, moved);
    match step {
        Ok(Some(found)) => {
            store_record(record, found);
            0
        }
        Ok(None) => END,
        Err(k) => code(k),
    }
}

// Opens a tag for its counters alone: the meter's words then say a meter at the first frame.
#[tactic(auto, unfolding(crate::specs::Meters::sv_meter_open))]
pub fn sv_meter_open(tag: &[u8], work: &mut [u8], meter: &mut [u64]) -> u32
    ensures { (result, work.new, meter.new) ≡ sv_meter_open tag.now work.old meter.old }
{
    if meter.len() < places::METER_WORDS {
        return SHORT;
    }
    match meter::opening::open(work, tag) {
        Ok(m) => {
            store_opened(meter, m);
            0
        }
        Err(k) => code(k),
    }
}

// Goes on to the next whole popularimeter of the top level, into its words. The meter's words then say the moved meter, or
// why it has stopped. Those of a meter that has stopped stay as they are.
#[tactic(auto, using(crate::proofs::Metering::next_short, crate::proofs::Metering::next_unknown, crate::proofs::Metering::next_stopped, crate::proofs::Metering::next_then))]
pub fn sv_meter_next(tag: &[u8], work: &mut [u8], meter: &mut [u64], metered: &mut [u64]) -> u32
    ensures { (result, work.new, meter.new, metered.new) ≡ sv_meter_next tag.now work.old meter.old metered.old }
{
    if (meter.len() < places::METER_WORDS) | (metered.len() < places::METERED_WORDS) {
        return SHORT;
    }
    if !is_running(meter) {
        return stopped(meter);
    }
    let Ok(version) = Version::try_from(meter[places::METER_VERSION]) else {
        return NO_STATE;
    };
    let (next, moved) = running(meter, version).next(work, tag);
    answered(meter, metered, next, moved)
}

// Puts the counter that a raise gave into its word.
fn store_raised(counter: &mut [u64], raised: Result<u64, Refusal>) -> u32
    requires { 1 ≤ length counter.old }
    ensures { (result, counter.new) ≡ after_raised raised counter.old }
{
    match raised {
        Ok(n) => {
            counter[0] = n;
            0
        }
        Err(k) => code(k),
    }
}

// Adds an amount to the counter of a user's popularimeter, in the counter's bytes that are there. The word then says the new
// counter. A refusal changes nothing.
#[tactic(auto, unfolding(crate::specs::Raises::sv_raise))]
pub fn sv_raise(tag: &mut [u8], user: &[u8], amount: u64, counter: &mut [u64]) -> u32
    ensures { (result, tag.new, counter.new) ≡ sv_raise tag.old user.now amount counter.old }
{
    if counter.len() < places::COUNTER_WORDS {
        return SHORT;
    }
    store_raised(counter, raise::raise(tag, user, amount))
}

// What an edit answers, as a number.
fn number_of(edited: Result<(), Refusal>) -> u32
    ensures { result ≡ edit_number edited }
{
    edited.err().map_or(0, code)
}

// Puts a record's frame in the place of the frame with this number. A refusal changes nothing.
#[tactic(auto, unfolding(crate::specs::Edits::sv_replace))]
pub fn sv_replace(
    tag: &mut [u8],
    number: u64,
    record: &[u64],
    name: &[u8],
    names: &[u8],
    rest: &[u8],
    deviations: &[u32],
) -> u32
    ensures { (result, tag.new) ≡ sv_replace tag.old number «record».now name.now names.now rest.now deviations.now }
{
    if record.len() < places::RECORD_WORDS {
        return SHORT;
    }
    let heading = heading_in(record);
    let given = Given {
        name,
        names,
        rest,
        deviations,
    };
    number_of(edit::replace(tag, number as usize, heading, &given))
}

// Takes away the frame with this number. A refusal changes nothing.
#[tactic(auto, unfolding(crate::specs::Edits::sv_remove))]
pub fn sv_remove(tag: &mut [u8], number: u64) -> u32
    ensures { (result, tag.new) ≡ sv_remove tag.old number }
{
    number_of(edit::remove(tag, number as usize))
}

// Puts a record's frame after the last. A refusal changes nothing.
#[tactic(auto, unfolding(crate::specs::Edits::sv_append))]
pub fn sv_append(
    tag: &mut [u8],
    record: &[u64],
    name: &[u8],
    names: &[u8],
    rest: &[u8],
    deviations: &[u32],
) -> u32
    ensures { (result, tag.new) ≡ sv_append tag.old «record».now name.now names.now rest.now deviations.now }
{
    if record.len() < places::RECORD_WORDS {
        return SHORT;
    }
    let heading = heading_in(record);
    let given = Given {
        name,
        names,
        rest,
        deviations,
    };
    number_of(edit::append(tag, heading, &given))
}

// Adds an amount to the counter of a user's popularimeter, in the counter's bytes that are there or, where these are too few,
// in a frame that takes more room. The word then says the new counter. A refusal changes nothing.
#[tactic(auto, unfolding(crate::specs::Edits::sv_lift))]
pub fn sv_lift(tag: &mut [u8], user: &[u8], amount: u64, counter: &mut [u64]) -> u32
    ensures { (result, tag.new, counter.new) ≡ sv_lift tag.old user.now amount counter.old }
{
    if counter.len() < places::COUNTER_WORDS {
        return SHORT;
    }
    store_raised(counter, edit::lift(tag, user, amount))
}

// Puts a writer that was begun into words.
fn store_begun(writer: &mut [u64], begun: Result<Writer, Refusal>) -> u32
    requires { 4 ≤ length writer.old }
    ensures { (result, writer.new) ≡ after_begin begun writer.old }
{
    match begun {
        Ok(w) => {
            store_writer(writer, w);
            0
        }
        Err(k) => code(k),
    }
}

// Begins a writer: version 2, 3 or 4, mode 0 (off), 1 (crate) or 2 (standard), altered 0 or 1.
#[tactic(auto, unfolding(crate::specs::Calls::sv_begin, writer::specs::Writer::begin_of))]
pub fn sv_begin(version: u64, mode: u64, altered: u64, writer: &mut [u64]) -> u32
    ensures { (result, writer.new) ≡ sv_begin version mode altered writer.old }
{
    if writer.len() < places::WRITER_WORDS {
        return SHORT;
    }
    let Some(altered) = flag_in(altered) else {
        return NO_STATE;
    };
    let (Ok(version), Ok(mode)) = (u8::try_from(version), u8::try_from(mode)) else {
        return NO_STATE;
    };
    store_begun(writer, writer::begin::begin(version, mode, altered))
}

// Begins a writer of mode 0 (off), for a file that is not altered.
#[tactic(auto, unfolding(crate::specs::Calls::sv_begin, writer::specs::Writer::begin_of))]
pub fn sv_begin_plain(version: u64, writer: &mut [u64]) -> u32
    ensures { (result, writer.new) ≡ sv_begin_plain version writer.old }
{
    if writer.len() < places::WRITER_WORDS {
        return SHORT;
    }
    let Ok(version) = u8::try_from(version) else {
        return NO_STATE;
    };
    store_begun(writer, writer::begin::begin_plain(version))
}

// Adds a record after the frames that the collecting buffer holds. The count is how many bytes it took there.
#[tactic(auto, using(crate::proofs::Left::counted_last), unfolding(crate::specs::Calls::sv_add))]
pub fn sv_add(
    record: &[u64],
    name: &[u8],
    names: &[u8],
    rest: &[u8],
    deviations: &[u32],
    buffer: &mut [u8],
    writer: &mut [u64],
    count: &mut [u64],
) -> u32
    ensures { (result, buffer.new, writer.new, count.new) ≡ sv_add «record».now name.now names.now rest.now deviations.now buffer.old writer.old count.old }
{
    if (record.len() < places::RECORD_WORDS)
        | ((writer.len() < places::WRITER_WORDS) | (count.len() < places::COUNT_WORDS))
    {
        return SHORT;
    }
    count[0] = NONE;
    let Some(w) = load_writer(writer) else {
        return NO_STATE;
    };
    let Some(h) = load_heading(record) else {
        return NO_RECORD;
    };
    let given = Given {
        name,
        names,
        rest,
        deviations,
    };
    let (added, next) = w.add(buffer, h, &given);
    match added {
        Ok(n) => {
            store_writer(writer, next);
            count[0] = n as u64;
            0
        }
        Err(k) => code(k),
    }
}

// Finishes a tag: its header, the frames of the collecting buffer and the padding. The count is how many bytes these are.
#[tactic(auto, using(crate::proofs::Left::counted_last), unfolding(crate::specs::Calls::sv_finish))]
pub fn sv_finish(
    padding: u64,
    buffer: &[u8],
    output: &mut [u8],
    writer: &[u64],
    count: &mut [u64],
) -> u32
    ensures { (result, output.new, count.new) ≡ sv_finish padding buffer.now output.old writer.now count.old }
{
    if (writer.len() < places::WRITER_WORDS) | (count.len() < places::COUNT_WORDS) {
        return SHORT;
    }
    count[0] = NONE;
    let Some(w) = load_writer(writer) else {
        return NO_STATE;
    };
    let (finished, _) = w.finish(output, buffer, padding as usize);
    match finished {
        Ok(n) => {
            count[0] = n as u64;
            0
        }
        Err(k) => code(k),
    }
}

// Puts the deviations of a table to the front of a buffer that has the room; other fields have none.
fn references(out: &mut [u32], fields: Fields, rest: &[u8]) -> Result<usize, Refusal>
    ensures { (result, out.new) ≡ references_of fields rest.now out.old }
{
    match fields {
        Fields::Table {
            bits_for_bytes,
            bits_for_millis,
            ..
        } => unpack(out, bits_for_bytes, bits_for_millis, rest, 0, rest.len()),
        _ => Ok(0),
    }
}

// The deviations that the packed references of a table hold, two by two. The count is how many numbers these are.
#[tactic(auto, using(crate::proofs::Left::counted_last), unfolding(crate::specs::Calls::sv_references))]
pub fn sv_references(record: &[u64], rest: &[u8], deviations: &mut [u32], count: &mut [u64]) -> u32
    ensures { (result, deviations.new, count.new) ≡ sv_references «record».now rest.now deviations.old count.old }
{
    if (record.len() < places::RECORD_WORDS) | (count.len() < places::COUNT_WORDS) {
        return SHORT;
    }
    count[0] = NONE;
    let Some(h) = load_heading(record) else {
        return NO_RECORD;
    };
    match references(deviations, h.fields, rest) {
        Ok(n) => {
            count[0] = n as u64;
            0
        }
        Err(k) => code(k),
    }
}
