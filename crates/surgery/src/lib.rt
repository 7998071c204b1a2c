// Edits of maps of darts and the number of faces after each; no function.
#![tactic(auto)]
