// Definitions and theorems only: the depths of an evidence section by rounds.

#![tactic(auto)]
