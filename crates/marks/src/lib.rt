// Theory only: a number as a set of marks, and lists of words as sets of any size. The definitions and theorems are in specs/.
#![tactic(auto)]
