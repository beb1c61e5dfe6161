// A checked fillet's angle and section are finite: no function, only proofs (document 02, Paper 6).
//
// One halving makes any tangent up to 2^500 at most 2, and the next makes that at most 1, so that the angle is at most
// 2^13; sine and cosine of such angles, and with them a section's area and moments, stay below 2^1000.
#![tactic(auto)]
