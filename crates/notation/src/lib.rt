// The notation in which the rules are written. It has definitions and laws, and no code.
#![tactic(auto)]
