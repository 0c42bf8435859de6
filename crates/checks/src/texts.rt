// Texts before they are written.
ghost use Rattle.std.specs.Prelude.{◌≡◌, []};
ghost use Rattle.format.specs.Record.{text};
ghost use Rattle.format.specs.Encode.{encoding_check};
ghost use Rattle.format.specs.Refusals.{passed};

use format::refusals::{Refusal, UNKNOWN_ENCODING};

// 12: the encoding is over 3. Nothing else of a record decides it.
pub(crate) fn encoding_check(encoding: u8) -> Result<(), Refusal>
    ensures { result ≡ passed (encoding_check (text encoding [])) }
{
    if 3 < encoding {
        Err(UNKNOWN_ENCODING)
    } else {
        Ok(())
    }
}
