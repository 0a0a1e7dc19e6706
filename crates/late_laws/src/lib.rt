// Theory only: that the second profile over the slots is the full history's; its promises. Apart from `late`, because every must-fail edit there would pay for it. In specs/.
#![tactic(auto)]
