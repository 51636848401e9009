// The starred cases of document 01, as one theorem over the rules. Nothing here runs.
#![tactic(auto)]
