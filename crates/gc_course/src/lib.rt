// What a rewrite is asked for, and where the nightly job stops.

#![tactic(auto)]

ghost use Rattle.std.specs.Prelude.{◌≡◌};
ghost use Rattle.gc_course.specs.Runs.{succeeds};

use rules::{Refusal, Stopped};

// "rewrites one named generation", with the plan's mark and file count.
#[derive(Clone, Copy)]
pub struct Request {
    pub generation: u64,
    pub mark: u64,
    pub count: u64,
}

// "stopping at the first call refused": its number and generation.
#[derive(Clone, Copy)]
pub struct Halt {
    pub refusal: Refusal,
    pub generation: u64,
}

// "nothing is pruned. Success prunes": whether a prune is due after this answer of the rewrites.
pub fn is_prune_due(answer: Result<u64, Stopped>) -> bool
    ensures { result ≡ succeeds answer }
{
    answer.is_ok()
}
