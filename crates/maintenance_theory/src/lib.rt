// Theorems on what maintenance answers. No code: specs/ holds the laws.
// Finished: `any-maintenance` (C). Rewrites: `rewrite-ends` (C of one rewrite). AsBefore: `job-as-before` (the nightly job).

#![tactic(auto)]
