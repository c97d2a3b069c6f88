// Request P3, "Let the editor see what it hasn't saved": theorems on a read through a batch. No code: specs/ holds the laws.
// Heard: the last operation on an id, as the plain engine hears it. Saved: `through-as-after-the-write`, and which slice.

#![tactic(auto)]
