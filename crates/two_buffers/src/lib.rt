// The table in two buffers, as document 01 had it before request P12, and that the four calls on it give what they give on the one buffer:
// no code.

#![tactic(auto)]
