// The three demands, as theorems over the definitions that the calls promise. Nothing else stands here.
#![tactic(auto)]
