// What an inserter sends (document 02, Paper 1): in specs/ its stream, the network in which it is the adapter, and the records of the program insert as calls on it; in proofs/ that they are so. It has no code.
#![tactic(auto)]
