// Theory only: three stations, each with the sets of its own cells, and a master that joins their precedences, beside the one scheduler. Definitions in specs/, theorems there and in proofs/.
#![tactic(auto)]
