// Meanings only: the rules of the level queue on a heap of levels, when a heap is sound, and the plain map it stands for. No function.
// specs/ is what a reader holds against the page; proofs/ has its laws, and nobody need read those to know what is meant.
#![tactic(auto)]
