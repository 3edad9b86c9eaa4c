// Definitions and theorems only: the specimens of document 01, and sections that show that demand 3 is not empty.
#![tactic(auto)]
