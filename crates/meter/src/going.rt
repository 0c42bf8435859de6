// Going on to the next popularimeter.
ghost use Rattle.std.specs.Prelude.{◌≡◌, ℕ, false};
ghost use Rattle.std.proofs.Math.Seq.{slice};
ghost use Rattle.format.specs.Unsynch.{resynchronised};
ghost use Rattle.walk.specs.Passing.{pass_in};
ghost use Rattle.meter.specs.Meter.{one_more, next_of};
ghost use Rattle.meter.specs.Meets.{flagged_of};

use crate::glance::{Glance, glance_at};
use crate::{Meter, Metered};
use format::Version;
use format::numbered::head_len;
use format::refusals::Refusal;
use frame::popularimeter::parse;
use reader::Stop;
use unsynch::resync_into;
use walk::passing::{Met, pass_at, read_as};
use walk::record::source;

// One more, or 0 after the largest.
fn one_more(n: u64) -> u64
    ensures { result ≡ one_more n }
{
    n.wrapping_add(1)
}

// A frame that is passed over, with nothing to mark.
fn passed(next: usize) -> Met
    ensures { result ≡ Met.Passed next false false }
{
    Met::Passed {
        next,
        short: false,
        packed: false,
    }
}

// A frame whose body tag[first..next] is resynchronised to the front of the work buffer and then passed over.
fn flagged(work: &mut [u8], tag: &[u8], first: usize, next: usize) -> Result<Option<Met>, Refusal>
    ensures { (result, work.new) ≡ flagged_of (resynchronised (slice first next tag.now)) next work.old }
{
    resync_into(work, tag, first, next)?;
    Ok(Some(passed(next)))
}

// What stands at a place of the tag's frames or, where in_work says so, of those in the work buffer. They end at `end`.
fn meet(
    work: &mut [u8],
    tag: &[u8],
    version: Version,
    in_work: bool,
    at: usize,
    end: usize,
) -> Result<Option<Met>, Refusal>
    ensures { (begin : ℕ) → (result, work.new) ≡ pass_in version in_work begin at end tag.now work.old }
{
    let s = source(in_work, &work[..], tag);
    match glance_at(version, s, at, end.min(s.len())) {
        Glance::End => Ok(None),
        Glance::Plain(size) => Ok(Some(passed(at + head_len(version) + size))),
        Glance::Flagged(size) if !in_work => {
            let first = at + head_len(version);
            flagged(work, tag, first, first + size)
        }
        Glance::Meter(size) => {
            let first = at + head_len(version);
            let next = first + size;
            read_as(parse(s, first, next), next, false, in_work)
        }
        _ => pass_at(work, tag, version, in_work, at, end),
    }
}

impl Meter {
    // Goes on from the place of a meter that runs.
    #[tactic(auto, using(crate::proofs::Meets::goes_on))]
    fn run(&mut self, work: &mut [u8], tag: &[u8]) -> Result<Option<Metered>, Refusal>
        requires { self.old.reader.stop ≡ Stop.Running }
        ensures { ((result, self.new), work.new) ≡ next_of self.old tag.now work.old }
    {
        loop {
            let r = self.reader;
            let met = match meet(work, tag, r.version, r.in_work, r.at, r.end) {
                Ok(Some(met)) => met,
                Ok(None) => {
                    self.reader.stop = Stop::Ended;
                    return Ok(None);
                }
                Err(k) => {
                    self.reader.stop = Stop::Failed(k);
                    return Err(k);
                }
            };
            let frame = self.frames;
            self.frames = one_more(frame);
            match met {
                Met::Passed {
                    next,
                    short,
                    packed,
                } => {
                    self.reader.at = next;
                    self.short |= short;
                    self.compressed |= packed;
                }
                Met::Popularimeter {
                    next,
                    in_work,
                    user,
                    rating,
                    counter,
                } => {
                    self.reader.at = next;
                    return Ok(Some(Metered {
                        in_work,
                        user,
                        rating,
                        counter,
                        frame,
                    }));
                }
            }
        }
    }

    // Goes on to the next whole popularimeter of the top level: it, or nothing at the end, or a refusal, with the moved meter.
    // What stops a reader stops the meter, and it stays stopped.
    #[tactic(auto, using(crate::proofs::Meets::next_ended, crate::proofs::Meets::next_failed))]
    pub fn next(self, work: &mut [u8], tag: &[u8]) -> (Result<Option<Metered>, Refusal>, Meter)
        ensures { (result, work.new) ≡ next_of self tag.now work.old }
    {
        match self.reader.stop {
            Stop::Running => {
                let mut moved = self;
                let met = moved.run(work, tag);
                (met, moved)
            }
            Stop::Ended => (Ok(None), self),
            Stop::Failed(k) => (Err(k), self),
        }
    }
}
