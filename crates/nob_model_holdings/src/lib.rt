//! What one space holds, and what has pins there, is its own or granted: laws of every list of right
//! deeds of that space, whatever the other spaces did. There is no code here: the lemmas in `proofs/`
//! are for the crates above to cite.
#![tactic(auto)]
