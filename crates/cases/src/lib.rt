// The proved table (document 01, "Proved table"): cases A1 to A12 hold for the definitions. It has no code: read
// specs/Cases.antt; the table's single statement, `all_hold`, and its proof are proofs/Cases.antt.
#![tactic(auto)]
