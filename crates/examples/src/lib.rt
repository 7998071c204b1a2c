// The program as a function from bytes to bytes, and the plates of document 01; no function yet.
#![tactic(auto)]
