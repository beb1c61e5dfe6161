// The cases that document 01 marks P ("Reviewer's checklist"): one table and one theorem, in specs/Cases.antt. No code
// works with them.
#![tactic(auto)]
