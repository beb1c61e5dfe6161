// Laws of the size and the order of rounded f64 operations: no function, only definitions (specs/Sizes) and proofs.
//
// An operation's exact result is a fraction, and rounding keeps the order of fractions; so what bounds the exact result
// bounds the rounded one, if the bound is itself an f64.
#![tactic(auto)]
