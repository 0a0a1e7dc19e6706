// What the checker and the lister keep while they read a log: theory only, in specs/.
#![tactic(auto)]
