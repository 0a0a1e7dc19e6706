// Theory only: requests run by plain locks, over the full history and over what the 32 slots hold. Definitions in specs/, theorems there and in proofs/.
#![tactic(auto)]
