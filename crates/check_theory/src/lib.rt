// Request P5, "Check what the PC tool made": theorems on the checker's list. No code: specs/ holds the laws.
// Wrong: the list is empty exactly if nothing is wrong. Listed: the same line by line. Accepting: every line has a position exactly if
// reopening accepts. Own: a slot's own fault beside reopening's order. Lives: any heap that our calls left, power cuts included.

#![tactic(auto)]
