// What load and write sheet owe each other: theory, with no functions.
#![tactic(auto)]
