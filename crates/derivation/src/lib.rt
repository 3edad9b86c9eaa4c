// Definitions and theorems only: the derivations of an evidence section.

#![tactic(auto)]
