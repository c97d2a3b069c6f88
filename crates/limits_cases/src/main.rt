// Refusal 1 clause by clause, at the ends of each range; claim and release; counts. A line for each case.

#![tactic(auto)]

mod claiming;
mod ranges;
mod show;
mod states;

use std::io;

fn main(rt: HostRuntime) -> io::Result<()> {
    ranges::settings(&rt)?;
    states::condition_one(&rt)?;
    claiming::claims_and_releases(&rt)
}
