// Cases that tell the definitions from likely wrong ones, each computed by the check: the tables and their theorems are
// in specs/. No code works with them.
#![tactic(auto)]
