// The five calls that change a sheet in any list, and demand 3: theory, with no functions.
#![tactic(auto)]
