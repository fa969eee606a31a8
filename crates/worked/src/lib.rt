// The page's bench examples (a) to (j) and its listing, as one table of statements, proved together. No function.
#![tactic(auto)]
