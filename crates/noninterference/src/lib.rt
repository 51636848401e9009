// Demand 3: no job's answer or byte depends on what the buffer held before. A theorem over the definitions; nothing here runs.
#![tactic(auto)]
