// Meanings only: what the run over a sheet and the writer of sheets answer and leave, refusals 11 to 18 and 21 to 25 in order. No function.
#![tactic(auto)]
