// Small choices on a frame's header.
ghost use Rattle.std.specs.Prelude.{◌≡◌};
ghost use Rattle.format.specs.Walk.{shown_kind, is_resynced, unfit};

use format::{Kind, Version};
use frame::body::kind_of;

// What a frame's body is: a compressed one is raw.
pub(crate) fn shown_kind(version: Version, id: u32, compressed: bool) -> Kind
    ensures { result ≡ shown_kind version id compressed }
{
    if compressed {
        Kind::Raw
    } else {
        kind_of(version, id)
    }
}

// Whether a body is resynchronised by itself: a compressed one is not.
pub(crate) fn is_resynced(compressed: bool, flagged: bool) -> bool
    ensures { result ≡ is_resynced compressed flagged }
{
    flagged && !compressed
}

// Whether a writer refuses a frame of a run: one that is short, or flagged.
pub(crate) fn is_unfit(strict: bool, short: bool, flagged: bool) -> bool
    ensures { result ≡ unfit strict short flagged }
{
    strict && (short || flagged)
}
