// Document 01's rules said from outside, each an equivalence where the paper's sentence is one. No code: specs/ holds the laws, a file
// for each heading.

#![tactic(auto)]
