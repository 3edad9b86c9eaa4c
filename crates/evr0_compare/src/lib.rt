// Definitions and theorems only: two evidence sections held against each other.

#![tactic(auto)]
