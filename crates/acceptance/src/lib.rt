// Which texts load accepts, and which number falls otherwise: theory, with no functions.
#![tactic(auto)]
