// Two widths: components that are +0 in every sample change no piece, no ending, no sample and no score. No function,
// only a definition (specs/Widths) and proofs.
//
// Document 01: "Const generics become two widths"; "an area run uses three of the seven, the rest zero". The code works
// seven components always, and the theorem is what makes its area's run the run of three.
#![tactic(auto)]
