// What a sound sheet is: theory, with no functions.
#![tactic(auto)]
