// Theory only: numbers counted upward, which every search, sum and list of the crates above is stated by.
#![tactic(auto)]
