// Laws of the error of rounded f64 operations: no function, only a definition (specs/Distances) and proofs.
//
// An operation's exact result is a fraction, and its rounded result lies within the unit roundoff, 2^-53, of any size
// that the fraction does not pass. Errors of a chain of operations are counted in unit roundoffs of such sizes.
#![tactic(auto)]
