// Rounded expressions as data, with bounds on their errors that are computed: no function, only proofs.
//
// A term has a value, which is an f64, and an exact number, which is a polynomial of its variables. `sound` of
// proofs/Sound says that the two are as near as the term's computed bound; `near_within` of proofs/Judged holds the
// value to any polynomial by one test.
#![tactic(auto)]
