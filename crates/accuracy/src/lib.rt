// How near the figures are to the exact ones: no function, only definitions (specs/) and proofs.
#![tactic(auto)]
