// No code: theorems of the port run against the model.
#![tactic(auto)]
