// Theorems on whole histories of calls. No code: specs/ holds the laws.
// History: `any-history` (demand 3). Fresh: `fresh-opens`, Accepting: `fresh-write`, `fresh-read` (N).
// Writes: `any-write`, `refused-unchanged`. Nightly: `job-made`, `job-lived` (request P7's job by its calls).

#![tactic(auto)]
