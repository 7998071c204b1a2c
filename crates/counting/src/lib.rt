// Finite counting, paths, permutations and their orbits: theory, with no functions.
#![tactic(auto)]
