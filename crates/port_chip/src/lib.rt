// No code: theorems of the port, whatever a chip answers.
#![tactic(auto)]
