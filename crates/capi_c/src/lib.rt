// The functions of capi, exported to C under their names: include/streamvault.h declares them. Each calls capi's function
// and states its clause again. What they answer and leave stands in capi's specs/.
#![tactic(auto)]

ghost use Rattle.std.specs.Prelude.{◌≡◌};
ghost use Rattle.capi.specs.Calls.{sv_header, sv_open, sv_step, sv_begin, sv_begin_plain, sv_add, sv_finish, sv_references};
ghost use Rattle.capi.specs.Meters.{sv_meter_open, sv_meter_next};
ghost use Rattle.capi.specs.Raises.{sv_raise};
ghost use Rattle.capi.specs.Edits.{sv_replace, sv_remove, sv_append, sv_lift};

// Reads the header of a tag into four words: version, flags, size, ext.
#[unsafe(no_mangle)]
pub extern "C" fn sv_header(tag: &[u8], header: &mut [u64]) -> u32
    ensures { (result, header.new) ≡ sv_header tag.now header.old }
{
    capi::sv_header(tag, header)
}

// Opens a tag: the reader's words then say a reader at the first frame.
#[unsafe(no_mangle)]
pub extern "C" fn sv_open(tag: &[u8], work: &mut [u8], reader: &mut [u64]) -> u32
    ensures { (result, work.new, reader.new) ≡ sv_open tag.now work.old reader.old }
{
    capi::sv_open(tag, work, reader)
}

// Reads the next frame into the record's words. The reader's words then say the moved reader, or why it has stopped.
#[unsafe(no_mangle)]
pub extern "C" fn sv_step(
    tag: &[u8],
    work: &mut [u8],
    reader: &mut [u64],
    record: &mut [u64],
) -> u32
    ensures { (result, work.new, reader.new, «record».new) ≡ sv_step tag.now work.old reader.old «record».old }
{
    capi::sv_step(tag, work, reader, record)
}

// Opens a tag for its counters alone: the meter's words then say a meter at the first frame.
#[unsafe(no_mangle)]
pub extern "C" fn sv_meter_open(tag: &[u8], work: &mut [u8], meter: &mut [u64]) -> u32
    ensures { (result, work.new, meter.new) ≡ sv_meter_open tag.now work.old meter.old }
{
    capi::sv_meter_open(tag, work, meter)
}

// Goes on to the next whole popularimeter of the top level, into its words. The meter's words then say the moved meter, or
// why it has stopped. Those of a meter that has stopped stay as they are.
#[unsafe(no_mangle)]
pub extern "C" fn sv_meter_next(
    tag: &[u8],
    work: &mut [u8],
    meter: &mut [u64],
    metered: &mut [u64],
) -> u32
    ensures { (result, work.new, meter.new, metered.new) ≡ sv_meter_next tag.now work.old meter.old metered.old }
{
    capi::sv_meter_next(tag, work, meter, metered)
}

// Adds an amount to the counter of a user's popularimeter, in the counter's bytes that are there. The word then says the new
// counter. A refusal changes nothing.
#[unsafe(no_mangle)]
pub extern "C" fn sv_raise(tag: &mut [u8], user: &[u8], amount: u64, counter: &mut [u64]) -> u32
    ensures { (result, tag.new, counter.new) ≡ sv_raise tag.old user.now amount counter.old }
{
    capi::sv_raise(tag, user, amount, counter)
}

// Puts a record's frame in the place of the frame with this number. A refusal changes nothing.
#[unsafe(no_mangle)]
pub extern "C" fn sv_replace(
    tag: &mut [u8],
    number: u64,
    record: &[u64],
    name: &[u8],
    names: &[u8],
    rest: &[u8],
    deviations: &[u32],
) -> u32
    ensures { (result, tag.new) ≡ sv_replace tag.old number «record».now name.now names.now rest.now deviations.now }
{
    capi::sv_replace(tag, number, record, name, names, rest, deviations)
}

// Takes away the frame with this number. A refusal changes nothing.
#[unsafe(no_mangle)]
pub extern "C" fn sv_remove(tag: &mut [u8], number: u64) -> u32
    ensures { (result, tag.new) ≡ sv_remove tag.old number }
{
    capi::sv_remove(tag, number)
}

// Puts a record's frame after the last. A refusal changes nothing.
#[unsafe(no_mangle)]
pub extern "C" fn sv_append(
    tag: &mut [u8],
    record: &[u64],
    name: &[u8],
    names: &[u8],
    rest: &[u8],
    deviations: &[u32],
) -> u32
    ensures { (result, tag.new) ≡ sv_append tag.old «record».now name.now names.now rest.now deviations.now }
{
    capi::sv_append(tag, record, name, names, rest, deviations)
}

// Adds an amount to the counter of a user's popularimeter, in the counter's bytes that are there or, where these are too few,
// in a frame that takes more room. The word then says the new counter. A refusal changes nothing.
#[unsafe(no_mangle)]
pub extern "C" fn sv_lift(tag: &mut [u8], user: &[u8], amount: u64, counter: &mut [u64]) -> u32
    ensures { (result, tag.new, counter.new) ≡ sv_lift tag.old user.now amount counter.old }
{
    capi::sv_lift(tag, user, amount, counter)
}

// Begins a writer: version 2, 3 or 4, mode 0 (off), 1 (crate) or 2 (standard), altered 0 or 1.
#[unsafe(no_mangle)]
pub extern "C" fn sv_begin(version: u64, mode: u64, altered: u64, writer: &mut [u64]) -> u32
    ensures { (result, writer.new) ≡ sv_begin version mode altered writer.old }
{
    capi::sv_begin(version, mode, altered, writer)
}

// Begins a writer of mode 0 (off), for a file that is not altered.
#[unsafe(no_mangle)]
pub extern "C" fn sv_begin_plain(version: u64, writer: &mut [u64]) -> u32
    ensures { (result, writer.new) ≡ sv_begin_plain version writer.old }
{
    capi::sv_begin_plain(version, writer)
}

// Adds a record after the frames that the collecting buffer holds. The count is how many bytes it took there.
#[unsafe(no_mangle)]
pub extern "C" fn sv_add(
    record: &[u64],
    name: &[u8],
    names: &[u8],
    rest: &[u8],
    deviations: &[u32],
    buffer: &mut [u8],
    writer: &mut [u64],
    count: &mut [u64],
) -> u32
    ensures { (result, buffer.new, writer.new, count.new) ≡ sv_add «record».now name.now names.now rest.now deviations.now buffer.old writer.old count.old }
{
    capi::sv_add(record, name, names, rest, deviations, buffer, writer, count)
}

// Finishes a tag: its header, the frames of the collecting buffer and the padding. The count is how many bytes these are.
#[unsafe(no_mangle)]
pub extern "C" fn sv_finish(
    padding: u64,
    buffer: &[u8],
    output: &mut [u8],
    writer: &[u64],
    count: &mut [u64],
) -> u32
    ensures { (result, output.new, count.new) ≡ sv_finish padding buffer.now output.old writer.now count.old }
{
    capi::sv_finish(padding, buffer, output, writer, count)
}

// The deviations that the packed references of a table hold, two by two. The count is how many numbers these are.
#[unsafe(no_mangle)]
pub extern "C" fn sv_references(
    record: &[u64],
    rest: &[u8],
    deviations: &mut [u32],
    count: &mut [u64],
) -> u32
    ensures { (result, deviations.new, count.new) ≡ sv_references «record».now rest.now deviations.old count.old }
{
    capi::sv_references(record, rest, deviations, count)
}
