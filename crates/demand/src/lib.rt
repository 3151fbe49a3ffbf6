// Origin: none.
// Demand 3 of document 01, of the code's calls and of its loop over recorded ones: specs/ states it over their contracts and proves it.

#![tactic(auto)]
