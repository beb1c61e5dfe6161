// Which fins are worked in one piece by 15 samples, and so are never refused 13: no function, only statements
// (specs/OnePiece) and proofs.
//
// The integrands of a square or airfoil strip are polynomials that both rules of a piece integrate exactly. Only
// rounding tells the two sums apart, and the bound on it that the crate error_terms computes is below 1e-12 of the sum.
#![tactic(auto)]
