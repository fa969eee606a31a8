// The three demands as statements over any calls, a file each in specs/, and proved of ours in proofs/. No function.
#![tactic(auto)]
