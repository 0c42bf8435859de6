// Adding a record: its frame after those that the collecting buffer has.
ghost use Rattle.std.specs.Prelude.{◌≡◌, ◌+◌, ◌^◌, ◌<◌, length, ltb};
ghost use Rattle.format.specs.Record.{Fits, given_content, given_rec};
ghost use Rattle.format.specs.Encode.{body_bytes, stored_of, encode};
ghost use Rattle.writer.specs.Layouts.{Puttable};
ghost use Rattle.writer.specs.Writer.{append_of, add_of};

use crate::Writer;
use crate::frames::{measure_frame, put_frame};
use checks::ids::is_lost;
use checks::record::record_check;
use checks::sizes::size_check;
use format::numbered::head_len;
use format::refusals::{NO_ROOM, Refusal};
use format::{Given, Heading};

// Whether a buffer is too short for n bytes after those used.
fn is_full(len: usize, used: usize, n: usize) -> bool
    ensures { result ≡ ltb len (used + n) }
{
    used > len || len - used < n
}

impl Writer {
    // Puts a record's frame, whose stored body is `size` bytes, after those there, or 20 where the room is not there.
    #[tactic(auto, using(crate::proofs::Adds::no_room, crate::proofs::Adds::room, crate::proofs::Adds::put_behind))]
    fn append(
        &mut self,
        buffer: &mut [u8],
        heading: Heading,
        given: &Given<'_>,
        size: usize,
    ) -> Result<usize, Refusal>
        requires { let content = given_content heading.fields given.now in
            Puttable content × (size ≡ length (stored_of self.old.version self.old.mode (body_bytes content))) × (size < 2 ^ 28) }
        ensures { let whole = given_rec heading given.now in
            ((result, self.new), buffer.new) ≡ append_of self.old (encode self.old.version self.old.mode whole) buffer.old }
    {
        let n = head_len(self.version) + size;
        if is_full(buffer.len(), self.used, n) {
            return Err(NO_ROOM);
        }
        self.used = put_frame(
            buffer,
            self.used,
            self.version,
            self.mode,
            heading,
            given,
            size,
        );
        Ok(n)
    }

    // Takes a record as a frame: refused with nothing changed, skipped where an altered file loses it, or put after the frames
    // there.
    #[tactic(auto, using(crate::proofs::Adds::skipped, crate::proofs::Adds::appended, crate::proofs::Lengths::size_refusal_lem))]
    fn take(
        &mut self,
        buffer: &mut [u8],
        heading: Heading,
        given: &Given<'_>,
    ) -> Result<usize, Refusal>
        ensures taken { ((result, self.new), buffer.new) ≡ add_of self.old (given_rec heading given.now) buffer.old }
        ensures fits { Fits (given_content heading.fields given.now) }
    {
        record_check(self.version, heading, given)?;
        if is_lost(self.version, self.altered, heading.id) {
            return Ok(0);
        }
        let size = measure_frame(self.version, self.mode, heading, given);
        size_check(self.version, size)?;
        self.append(buffer, heading, given, size)
    }

    // Adds a record as a frame: how many bytes it took, with the next writer; 0 where an altered file loses it. A refused call
    // changes nothing. It also tells that the heading's numbers are of their types, which a caller cannot see inside an enum.
    pub fn add(
        self,
        buffer: &mut [u8],
        heading: Heading,
        given: &Given<'_>,
    ) -> (Result<usize, Refusal>, Writer)
        ensures added { (result, buffer.new) ≡ add_of self (given_rec heading given.now) buffer.old }
        ensures fits { Fits (given_content heading.fields given.now) }
    {
        let mut next = self;
        let taken = next.take(buffer, heading, given);
        (taken, next)
    }
}
