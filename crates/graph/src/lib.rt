// Theory only: walks, circles and listings over an edge relation on numbers. The definitions are in specs/, with the theorems that rest on none of them under an edit; the others are in proofs/.
#![tactic(auto)]
