// The order of each call's refusals, worked out on small worlds. No code: specs/ holds the worlds, the table and the one statement on it.

#![tactic(auto)]
