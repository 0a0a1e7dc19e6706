// Theory only: the morning sheet, the part of an order that will not move, on bytes and lists. Definitions in specs/, theorems there and in proofs/.
#![tactic(auto)]
