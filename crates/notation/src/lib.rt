// Theory only: logs in the report's notation, what import and export of such texts answer, and that they fit together. Definitions in specs/, theorems there and in proofs/.
#![tactic(auto)]
