// Theory only: a log in blocks of 512 bytes, what the writer and the reader of blocks answer, and what is promised of them. Definitions in specs/, theorems there and in proofs/.
#![tactic(auto)]
