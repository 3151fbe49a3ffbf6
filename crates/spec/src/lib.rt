// Origin: none.
// Document 01 as definitions: specs/ holds them and the theorems about them.

#![tactic(auto)]
