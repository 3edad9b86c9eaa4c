// Definitions and theorems only: tables of proof rules as bytes, and evidence sections by the rules of such a table.

#![tactic(auto)]
