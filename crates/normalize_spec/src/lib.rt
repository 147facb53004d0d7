// What normalization means, with demand 3. Definitions in specs/, their laws in proofs/, and no code.
#![tactic(auto)]
