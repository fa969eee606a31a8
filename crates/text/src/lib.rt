// Meanings only: bytes as lines and words, and a number as decimal digits. No function.
#![tactic(auto)]
