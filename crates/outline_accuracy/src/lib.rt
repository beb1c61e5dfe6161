// How far the area of a drawn outline is from the exact one: no function, only statements (specs/OutlineAreas) and
// proofs.
#![tactic(auto)]
