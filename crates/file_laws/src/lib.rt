// Theorems alone: they stand in specs/, and there is no code.
#![tactic(auto)]
