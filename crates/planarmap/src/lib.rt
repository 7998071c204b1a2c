// Plane maps of darts: corners, the order of faces, no contact; no function.
#![tactic(auto)]
