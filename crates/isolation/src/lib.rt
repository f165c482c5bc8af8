// No code: what a User program can learn and change, proved of the definitions that the card is proved against.
#![tactic(auto)]
