// Theorems on document 01's definitions. No code: specs/ holds the laws.
// Sound, SoundWorld: the invariant. Reopened: `reopened-means` (G). On these rest crates history_theory and maintenance_theory.

#![tactic(auto)]
