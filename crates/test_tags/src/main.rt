// Lists tags that were made by hand: tests/tags.py tells how.
#![tactic(auto)]

use std::io;

fn main(rt: HostRuntime) -> io::Result<()> {
    show::cases::run(&mut rt.stdin(), &mut rt.stdout())
}
