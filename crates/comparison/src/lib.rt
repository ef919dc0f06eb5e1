// Demand 3 of the mission, and which of its conditions are needed: theorems about the calls that judge; no function.

#![tactic(auto)]
