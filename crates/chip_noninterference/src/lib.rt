// Demand 3 of the virtual chip's calls: its statement is in specs/, its proof in proofs/. Nothing here runs.
#![tactic(auto)]
