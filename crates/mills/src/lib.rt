// No code: what is proved of the images of programs is in specs and proofs.
#![tactic(auto)]
