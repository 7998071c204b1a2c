// Tests of a drawing: its numbers, its wires' ends, and no contact.
#![tactic(auto)]

mod columns;
mod ends;
mod formed;
mod lists;
mod sweep;

pub use formed::is_well_formed;
pub use sweep::is_clear;
