// The popularimeters of a user that a search has come by.
ghost use Rattle.std.specs.Prelude.{◌≡◌, ◌+◌, ◌≤◌, length};
ghost use Rattle.std.proofs.Math.Seq.{slice};
ghost use Rattle.raise.specs.Raise.{same_bytes};
ghost use Rattle.raise.specs.Seeks.{also_of};

// None, one whose frame begins at `begin` and whose counter lies from start up to stop, or more than one.
#[derive(Clone, Copy)]
pub enum Found {
    None,
    One {
        begin: usize,
        start: usize,
        stop: usize,
        counter: u64,
    },
    Many,
}

// Whether the len bytes of s from `start` on are the user's.
pub(crate) fn is_user(s: &[u8], start: usize, len: usize, user: &[u8]) -> bool
    requires { start + len ≤ length s.now }
    ensures { result ≡ same_bytes (slice start (start + len) s.now) user.now }
{
    &s[start..start + len] == user
}

// What was found, after one more popularimeter, which is the user's or not.
pub(crate) fn also(
    found: Found,
    mine: bool,
    begin: usize,
    start: usize,
    stop: usize,
    counter: u64,
) -> Found
    ensures { result ≡ also_of found mine begin start stop counter }
{
    if !mine {
        return found;
    }
    match found {
        Found::None => Found::One {
            begin,
            start,
            stop,
            counter,
        },
        _ => Found::Many,
    }
}
