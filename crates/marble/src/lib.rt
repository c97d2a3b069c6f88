// The public calls of document 01 in one place (`src/lib.rs`). Each is a total function: no `requires`, an answer for every input.

#![tactic(auto)]

// "Settings": the defaults; refusal 1, for the settings and buffers of a reopening and for a call on a state.
pub use limits::{defaults, out_of_range, refused};

// "Reopen"
pub use recovery::{Reopened, reopen};

// "Write"
pub use writepath::{Written, write};

// "Read": the body's part of the lent heap, and the answer beside it.
pub use readpath::{read, read_answer};

// Request P3, "Let the editor see what it hasn't saved": a part of the batch or of the heap, and the answer beside it.
pub use through::{ThroughLookup, through, through_answer};

// "Claim, release", "Counts"
pub use claims::{ClaimAnswer, claim, counts, release};

// Claim and release on the claim record itself, lent.
pub mod in_place;

// Request P7, "Maintenance in two calls": one plans, the other rewrites one named generation; and the nightly job over these and prune.
pub use gc::{Rewritten, rewrite, rewrite_in};
pub use gc_course::{Halt, Request};
pub use gc_nightly::{Maintained, nightly, nightly_in};
pub use gc_plan::{PlanValues, Planned, plan, plan_in};

// "Prune"
pub use prune::{PruneAnswer, prune};

// Request P5, "Check what the PC tool made": everything wrong with a heap.
pub use checker::check;

// Request P9, "Rescue a damaged heap": the slots that make a reopening refuse are emptied, and named.
pub use salvage::salvage;

// "Table": load, store, compare-and-store, store-if-greater.
pub use table_calls::{compare_and_store, load, store, store_if_greater};
