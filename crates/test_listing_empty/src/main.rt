// The listing program with no input.
#![tactic(auto)]

use std::io;

fn main(rt: HostRuntime) -> io::Result<()> {
    show::run(&mut rt.stdin(), &mut rt.stdout())
}
