// Rules 1 to 4, as rules/structural.rs has them.
#![tactic(auto)]
