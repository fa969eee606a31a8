// Laws of lists that proofs of code cite: a part of a list read, and a list stored in another from an index on. No function.
#![tactic(auto)]
