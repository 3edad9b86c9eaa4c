// Definitions and theorems only: what an evidence section is.

#![tactic(auto)]
