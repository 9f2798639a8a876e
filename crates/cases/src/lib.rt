// P1 to P13 of document 01, as one statement over one list.
#![tactic(auto)]
