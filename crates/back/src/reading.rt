// Reading the only record of a tag.
ghost use Rattle.std.specs.Prelude.{◌≡◌};
ghost use Rattle.back.specs.Trips.{read_of};

use format::Record;
use reader::opening::open;

// The only record of a tag: the one that the first step shows, where the second meets the end.
pub(crate) fn read_one(work: &mut [u8], tag: &[u8]) -> Option<Record>
    ensures { (result, work.new) ≡ read_of tag.now work.old }
{
    let reader = open(work, tag).ok()?;
    let (first, moved) = reader.step(work, tag);
    let record = first.ok()??;
    let (second, _) = moved.step(work, tag);
    match second.ok()? {
        None => Some(record),
        Some(_) => None,
    }
}
