// The steps of a reader.
ghost use Rattle.std.specs.Prelude.{◌≡◌};
ghost use Rattle.reader.specs.Reader.{answer_of, run_step, step_of};

use crate::{Reader, Stop};
use format::Record;
use format::refusals::Refusal;
use walk::record::frame_at;

impl Reader {
    // What a running reader answers where this is at its place, with the moved reader.
    fn answer(
        self,
        shown: Result<Option<(Record, usize)>, Refusal>,
    ) -> (Result<Option<Record>, Refusal>, Reader)
        ensures { result ≡ answer_of shown self }
    {
        let mut moved = self;
        match shown {
            Ok(Some((record, next))) => {
                moved.at = next;
                moved.stop = Stop::Running;
                (Ok(Some(record)), moved)
            }
            Ok(None) => {
                moved.stop = Stop::Ended;
                (Ok(None), moved)
            }
            Err(k) => {
                moved.stop = Stop::Failed(k);
                (Err(k), moved)
            }
        }
    }

    // A step of a running reader.
    fn go(self, work: &mut [u8], tag: &[u8]) -> (Result<Option<Record>, Refusal>, Reader)
        ensures { (result, work.new) ≡ run_step self.in_work self tag.now work.old }
    {
        let shown = frame_at(
            work,
            tag,
            self.version,
            self.in_work,
            self.begin,
            self.at,
            self.end,
        );
        self.answer(shown)
    }

    // Takes the next frame: its record, or nothing at the end, or a refusal, with the moved reader. An ended reader stays
    // ended, a refused one refused with its number.
    #[tactic(auto, using(crate::proofs::Steps::running, crate::proofs::Steps::ended, crate::proofs::Steps::failed))]
    pub fn step(self, work: &mut [u8], tag: &[u8]) -> (Result<Option<Record>, Refusal>, Reader)
        ensures { (result, work.new) ≡ step_of self tag.now work.old }
    {
        match self.stop {
            Stop::Running => self.go(work, tag),
            Stop::Ended => (Ok(None), self),
            Stop::Failed(k) => (Err(k), self),
        }
    }
}
