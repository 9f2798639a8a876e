// Texts as bytes: numbers, labels and the lines of gates, stored in a room.
#![tactic(auto)]

pub mod gate_texts;
pub mod laying;
pub mod numbers;
pub mod storing;
