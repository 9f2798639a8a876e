// Theory only: the row-by-row procedure, once over the radix and the family of gates.
#![tactic(auto)]
