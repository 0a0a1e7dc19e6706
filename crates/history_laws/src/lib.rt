// Theory only: what is proved of histories, replies, the bounded memory and orders; the promises. Apart from `history`, because every must-fail edit there would pay for it. In specs/.
#![tactic(auto)]
