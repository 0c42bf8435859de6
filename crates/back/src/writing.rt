// Writing a tag of one record.
ghost use Rattle.std.specs.Prelude.{◌≡◌};
ghost use Rattle.format.specs.Record.{given_rec};
ghost use Rattle.back.specs.Trips.{write_of, FitsIn};

use format::refusals::Refusal;
use format::{Given, Heading};
use writer::begin::begin;

// Begins a writer with the altered mark off, adds the record and finishes.
pub(crate) fn write_one(
    buffer: &mut [u8],
    output: &mut [u8],
    version: u8,
    mode: u8,
    padding: usize,
    heading: Heading,
    given: &Given<'_>,
) -> Result<usize, Refusal>
    ensures output_after { let r = given_rec heading given.now in
        (result, (buffer.new, output.new)) ≡ write_of version mode padding r buffer.old output.old }
    ensures fits_in { FitsIn result (given_rec heading given.now) }
{
    let writer = begin(version, mode, false)?;
    let (added, next) = writer.add(buffer, heading, given);
    added?;
    let (finished, _) = next.finish(output, &buffer[..], padding);
    finished
}
