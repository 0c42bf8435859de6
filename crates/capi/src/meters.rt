// Meters and metered popularimeters, loaded from words and stored there. What each word means stands in specs/Meters.antt.
ghost use Rattle.std.specs.Prelude.{◌≡◌, ◌≤◌, length};
ghost use Rattle.capi.specs.Meters.{is_meter, meter_with, metered_words};
ghost use Rattle.capi.specs.Metering.{opened_words, is_running, stopped_of, moved_words, answered_of};

use crate::words::is_reader;
use crate::{END, NO_STATE, code, places};
use format::Version;
use format::refusals::Refusal;
use meter::{Meter, Metered};
use reader::{Reader, Stop};

// ---- opening

// Puts a meter that was opened, and so has passed nothing, into words.
#[tactic(auto, unfolding(crate::specs::Metering::opened_words))]
pub(crate) fn store_opened(words: &mut [u64], m: Meter)
    requires { 11 ≤ length words.old }
    ensures { words.new ≡ opened_words m words.old }
{
    let reader = m.reader;
    words[places::METER_VERSION] = u64::from(u8::from(reader.version));
    words[places::METER_IN_WORK] = u64::from(reader.in_work);
    words[places::METER_BEGIN] = reader.begin as u64;
    words[places::METER_AT] = reader.at as u64;
    words[places::METER_END] = reader.end as u64;
    words[places::METER_STOP] = places::STOP_RUNNING;
    words[places::METER_NUMBER] = 0;
    words[places::METER_FRAMES] = 0;
    words[places::METER_SHORT] = 0;
    words[places::METER_COMPRESSED] = 0;
    words[places::METER_MISSING] = u64::from(m.missing);
}

// ---- a meter that runs

// Whether words say a meter that runs, if the first says an edition.
pub(crate) fn is_running(words: &[u64]) -> bool
    requires { 11 ≤ length words.now }
    ensures { result ≡ is_running words.now }
{
    ((words[places::METER_STOP] == places::STOP_RUNNING) & (words[places::METER_NUMBER] == 0))
        & ((words[places::METER_IN_WORK] <= 1)
            & ((words[places::METER_SHORT] <= 1)
                & ((words[places::METER_COMPRESSED] <= 1) & (words[places::METER_MISSING] <= 1))))
}

// The meter that words say, if it is one that runs.
pub(crate) fn running(words: &[u64], version: Version) -> Meter
    requires { 11 ≤ length words.now }
    ensures { result ≡ meter_with version Stop.Running words.now }
{
    let reader = Reader {
        version,
        in_work: words[places::METER_IN_WORK] == 1,
        begin: words[places::METER_BEGIN] as usize,
        at: words[places::METER_AT] as usize,
        end: words[places::METER_END] as usize,
        stop: Stop::Running,
    };
    Meter {
        reader,
        frames: words[places::METER_FRAMES],
        short: words[places::METER_SHORT] == 1,
        compressed: words[places::METER_COMPRESSED] == 1,
        missing: words[places::METER_MISSING] == 1,
    }
}

// ---- words that say no meter that runs

// Whether words say a meter.
fn is_meter(words: &[u64]) -> bool
    requires { 11 ≤ length words.now }
    ensures { result ≡ is_meter words.now }
{
    is_reader(
        words[places::METER_VERSION],
        words[places::METER_IN_WORK],
        words[places::METER_STOP],
        words[places::METER_NUMBER],
    ) & ((words[places::METER_SHORT] <= 1)
        & ((words[places::METER_COMPRESSED] <= 1) & (words[places::METER_MISSING] <= 1)))
}

// What is answered to words that say no meter that runs: the end or the refusal again, or that they are no meter.
pub(crate) fn stopped(words: &[u64]) -> u32
    requires { 11 ≤ length words.now }
    ensures { result ≡ stopped_of words.now }
{
    if !is_meter(words) {
        return NO_STATE;
    }
    if words[places::METER_STOP] == places::STOP_ENDED {
        return END;
    }
    words[places::METER_NUMBER] as u32
}

// ---- what came next

// Puts what changes of a meter that goes on into its words.
#[tactic(auto, unfolding(crate::specs::Metering::moved_words))]
fn store_moved(words: &mut [u64], m: Meter)
    requires { 11 ≤ length words.old }
    ensures { words.new ≡ moved_words m words.old }
{
    words[places::METER_AT] = m.reader.at as u64;
    words[places::METER_FRAMES] = m.frames;
    words[places::METER_SHORT] = u64::from(m.short);
    words[places::METER_COMPRESSED] = u64::from(m.compressed);
}

// Puts a popularimeter into words.
#[tactic(auto, unfolding(crate::specs::Meters::metered_words))]
fn store_metered(words: &mut [u64], p: Metered)
    requires { 6 ≤ length words.old }
    ensures { words.new ≡ metered_words p words.old }
{
    words[places::METERED_IN_WORK] = u64::from(p.in_work);
    words[places::METERED_USER_START] = p.user.start as u64;
    words[places::METERED_USER_LEN] = p.user.len as u64;
    words[places::METERED_RATING] = u64::from(p.rating);
    words[places::METERED_COUNTER] = p.counter;
    words[places::METERED_FRAME] = p.frame;
}

// Puts what came next into the words of a meter that ran, and into those of the popularimeter.
pub(crate) fn answered(
    meter: &mut [u64],
    metered: &mut [u64],
    next: Result<Option<Metered>, Refusal>,
    m: Meter,
) -> u32
    requires in_bounds { 11 ≤ length meter.old }
    requires in_bounds_2 { 6 ≤ length metered.old }
    ensures { (result, meter.new, metered.new) ≡ answered_of (next, m) meter.old metered.old }
{
    store_moved(meter, m);
    match next {
        Ok(Some(p)) => {
            store_metered(metered, p);
            0
        }
        Ok(None) => {
            meter[places::METER_STOP] = places::STOP_ENDED;
            END
        }
        Err(k) => {
            meter[places::METER_STOP] = places::STOP_REFUSED;
            meter[places::METER_NUMBER] = u64::from(k.number);
            code(k)
        }
    }
}
