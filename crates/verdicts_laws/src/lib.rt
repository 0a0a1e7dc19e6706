// Theory only: what the checker's verdict and the lister's answer mean; the promises. Apart from `verdicts`, because every must-fail edit there would pay for it. In specs/.
#![tactic(auto)]
