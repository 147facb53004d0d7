// What a GFA text means: how it is read and spelled. Definitions in specs/, their laws in proofs/, and no code.
#![tactic(auto)]
