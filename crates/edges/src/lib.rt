// Edges (a) to (j) of document 01, as one table: a theorem about the calls that judge; no function.

#![tactic(auto)]
