// Theory only: the coarse mode of the first profile, in which cells are marked by their groups, over the full history and over what the 32 slots hold. Definitions in specs/, theorems there and in proofs/.
#![tactic(auto)]
