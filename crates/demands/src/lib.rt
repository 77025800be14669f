// What the user asked to be certain of. The theorems stand in specs/; those that rest on a definition which a must-fail edit changes, in proofs/.
#![tactic(auto)]
