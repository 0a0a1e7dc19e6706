// Theory only: histories, the replies they give, orders and what they leave, and worked cases of them. What is proved of them stands in `history_laws`. In specs/.
#![tactic(auto)]
