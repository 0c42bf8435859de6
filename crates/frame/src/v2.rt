// Frame headers of ID3v2.2: three bytes of id, three of size.
ghost use Rattle.std.specs.Prelude.{◌≡◌, ℕ, ◌≤◌};
ghost use Rattle.format.specs.Frame.{head_of};
ghost use Rattle.format.specs.declared.Version.{Version};
ghost use Rattle.frame.specs.Headers.{Begun};

use crate::fields::found;
use format::Head;
use format::refusals::Refusal;
use loads::read_few;

// A frame that passed the first checks: its body may be cut by the end.
pub(crate) fn with_body(b: &[u8]) -> Result<Option<Head>, Refusal>
    requires { Begun Version.Id3v22 b.now }
    ensures { (depth : ℕ) → depth ≤ 8 → result ≡ head_of Version.Id3v22 depth b.now }
{
    let id = read_few(b, 0, 3, 3) as u32;
    let size = read_few(b, 3, 6, 3) as usize;
    Ok(Some(found(id, false, false, 6, size, b.len() - 6)))
}
