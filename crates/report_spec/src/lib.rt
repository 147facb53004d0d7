// What the report means. Definitions in specs/, their laws in proofs/, and no code.
#![tactic(auto)]
