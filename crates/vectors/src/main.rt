// The original's answers, replayed: `stdin` has a script, `stdout` what the original said to it (tests/oracle/vectors.py).

#![tactic(auto)]

use std::io;

fn main(rt: HostRuntime) -> io::Result<()> {
    bench::run(&rt)
}
