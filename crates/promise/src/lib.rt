// No code: what a complete contract is, and the laws that every crate shares, stand in specs/.
#![tactic(auto)]
