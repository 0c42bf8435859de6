// Lists tags to which the answers of the crate id3 were recorded: compare tells how.
#![tactic(auto)]

use std::io;

fn main(rt: HostRuntime) -> io::Result<()> {
    show::cases::run(&mut rt.stdin(), &mut rt.stdout())
}
