// Images that are turned away. No code.
#![tactic(auto)]
