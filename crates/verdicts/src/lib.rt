// Theory only: the reading of a log, the checker's verdict and the lister's answer, on bytes and lists, and worked cases of them. What is proved of them stands in `verdicts_laws`. Definitions in specs/, theorems there and in proofs/.
#![tactic(auto)]
