// Origin: none.
// Skipped triggers (document 02, N9) as a theorem about document 01's commit: specs/ states it (Skipped) and proves it.

#![tactic(auto)]
