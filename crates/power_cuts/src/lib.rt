// Request P8, "Power pulled in the middle". No code: specs/ holds definitions and laws.
// Runs: a call's numbered run of single-byte stores. Cuts: what a power cut leaves. PowerCut: `power-cut`, `job-cut`, `any-history-cut`.

#![tactic(auto)]
