// Laws of one run of a job, as theorems over the definitions. Nothing here runs.
#![tactic(auto)]
