// Row r of a cascade is gate r beside each gate behind it. While a cascade is tidied in its buffer, gates that go leave gaps, and it is remembered of
// each row how far its gate passes the others and no rule fits. Here this is made, looked at, and kept true where a gate changes.
#![tactic(auto)]

pub mod buffer;
pub mod changes;
pub mod memory;
mod rows;
pub mod views;
