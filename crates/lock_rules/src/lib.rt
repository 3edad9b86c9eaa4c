// Definitions and theorems only: locks with owners.

#![tactic(auto)]
