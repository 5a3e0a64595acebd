// Runs of a slave: in specs/ what document 01's "Runs" and demand 3 say, what a longer MD makes of a late mark (document 02, Paper 3), and what a gap-filler
// has in common with a full board (Paper 9); in proofs/ that it holds. It has no code.
#![tactic(auto)]
