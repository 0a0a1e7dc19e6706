// Theory only: that the rule over what the 32 slots hold is the full history's. Apart from `held`, because every must-fail edit there would pay for it. In specs/.
#![tactic(auto)]
