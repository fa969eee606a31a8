// Meanings only: rows of half-edges, walks with their sums, the table of least distances, the settling order. No function.
#![tactic(auto)]
