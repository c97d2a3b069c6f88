// Request P9, "Rescue a damaged heap": theorems on a salvage's report and on the heap that it leaves. No code: specs/ holds the laws.
// Reopens: reopening afterwards is accepted or refused with 6, and the report is empty exactly there. Cut: a salvage cut behind any
// store, and a second one. Reported, KeptFiles: which slots are given up. FirstBytes: which bytes change. Rescued: demand 3 from there.

#![tactic(auto)]
