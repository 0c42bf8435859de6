// The listing program with an input that just fits.
#![tactic(auto)]

use std::io;

fn main(rt: HostRuntime) -> io::Result<()> {
    show::run(&mut rt.stdin(), &mut rt.stdout())
}
