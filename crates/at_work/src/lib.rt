// The image while Delete-Min works, and its laws. No function.
#![tactic(auto)]
