// Theory only: the states that no requests give, with the next state to its last word. In specs/.
#![tactic(auto)]
