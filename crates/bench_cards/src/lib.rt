// No code: the twelve bench cards, proved of the definitions.
#![tactic(auto)]
