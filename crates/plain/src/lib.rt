// Meanings only: tables of refusals, lists of pairs. No function.
#![tactic(auto)]
