// Values that move along connections. No code.
#![tactic(auto)]
