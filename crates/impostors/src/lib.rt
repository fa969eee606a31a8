// The wrong queues of the page, "Promises held to account", each refuted by a theorem against the demand it breaks. No function.
#![tactic(auto)]
