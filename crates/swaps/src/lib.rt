// Theory only: two steps that do not conflict change places, and a granted step may be given again. Definitions in specs/, theorems there and in proofs/.
#![tactic(auto)]
