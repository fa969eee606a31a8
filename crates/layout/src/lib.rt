// Meanings only: the image of a heap in a lent slice of words, when a slice holds a sound image, and what each outward call answers and leaves,
// refusals 1 to 5 in order. No function.
#![tactic(auto)]
