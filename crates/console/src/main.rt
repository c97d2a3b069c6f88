// The bench program for people and for the comparison with the original: the first screen, then a script.

#![tactic(auto)]

use std::io;

fn main(rt: HostRuntime) -> io::Result<()> {
    bench::say::first_screen(&rt)?;
    bench::run(&rt)
}
