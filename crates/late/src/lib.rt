// Theory only: the second profile, in which reads are granted and a job is tested when it publishes, over the full history and over what the 32 slots hold, and worked cases of it. What is proved of it stands in `late_laws`. In specs/.
#![tactic(auto)]
