// What the program `digests` goes through: tables one after the other, and drawn tables and cascades.
#![tactic(auto)]

pub mod draws;
pub mod orders;
