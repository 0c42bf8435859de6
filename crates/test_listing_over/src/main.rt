// The listing program with an input of one byte too many.
#![tactic(auto)]

use std::io;

fn main(rt: HostRuntime) -> io::Result<()> {
    show::run(&mut rt.stdin(), &mut rt.stdout())
}
