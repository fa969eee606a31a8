// Meanings and laws only: a sound image clause by clause on its words, and that these clauses are its soundness. No function.
#![tactic(auto)]
