// Meanings only: the half-edges of edge records as words, which in ascending order are the sheet's half-edges. No function.
#![tactic(auto)]
