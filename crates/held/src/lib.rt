// Theory only: the rule over what the 32 slots hold, total for any content, and worked cases of it. What is proved of it stands in `held_laws`. Definitions in specs/, theorems there and in proofs/.
#![tactic(auto)]
