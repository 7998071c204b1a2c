// What reading and writing owe each other: theory, with no functions.
#![tactic(auto)]
