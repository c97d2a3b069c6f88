// Statements that the prover computes, in a crate of their own: they take longest, and no must-fail edit waits for them. No code.
// Witness: `moves`. Foreign: `foreign-clean`.

#![tactic(auto)]
