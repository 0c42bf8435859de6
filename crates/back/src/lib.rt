// One record written to a tag and read back, over lent buffers: what the calls ensure, put together.
#![tactic(auto)]

mod reading;
mod writing;

ghost use Rattle.std.specs.Prelude.{◌≡◌, ◌≤◌, length};
ghost use Rattle.format.specs.Record.{given_rec};
ghost use Rattle.back.specs.Trips.{wrote_count, write_of, back_of, Kept};

use format::refusals::Refusal;
use format::{Given, Heading, Record};
use reading::read_one;
use writing::write_one;

// Writes one record to a tag and reads it back: how many bytes the tag has and the record, nothing where reading does not give one
// record and then the end, or the refusal of writing it. With a work buffer as long as the tag, what writing accepts comes
// back as it was given.
pub fn there_and_back(
    buffer: &mut [u8],
    output: &mut [u8],
    work: &mut [u8],
    version: u8,
    mode: u8,
    padding: usize,
    heading: Heading,
    given: &Given<'_>,
) -> Result<Option<(usize, Record)>, Refusal>
    ensures work_after { let r = given_rec heading given.now in
        (result, (buffer.new, (output.new, work.new))) ≡ back_of version mode padding r buffer.old output.old work.old }
    ensures kept { let r = given_rec heading given.now in
        wrote_count (write_of version mode padding r buffer.old output.old).0 ≤ length work.old → Kept r result output.new work.new }
{
    let n = write_one(buffer, output, version, mode, padding, heading, given)?;
    Ok(read_one(work, &output[..n]).map(|record| (n, record)))
}
