// No code: what the card promises of every run, proved of the definitions that it is proved against.
#![tactic(auto)]
