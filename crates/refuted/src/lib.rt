// Theory only: checkers and listers that are wrong, refuted by what the verdicts promise, and what code 17 does not say. Apart from `verdicts`, because every must-fail edit there would pay for it. In specs/.
#![tactic(auto)]
