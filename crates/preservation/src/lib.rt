// What the edits keep: theory, with no functions.
#![tactic(auto)]
