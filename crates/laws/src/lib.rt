// Laws of the controller, as theorems over its rules. Nothing here runs.
#![tactic(auto)]
