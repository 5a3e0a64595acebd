// Document 01's reckoned examples, P4 as document 02 has it: one table in specs/, and in proofs/ the one statement that it holds. It has no code.
#![tactic(auto)]
