// The rules of tidying on two gates: whether they may change places, which rule fits them, and what it makes of them. What tidying means stands in
// specs/, what it promises in proofs/Promises.antt; the crates above do it.
#![tactic(auto)]

pub mod fitting;
pub mod passing;
