// Definitions and laws only: what the program `plate` prints is the drawing that demand 3 speaks of.
#![tactic(auto)]
