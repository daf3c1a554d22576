//! Laws on lists that later crates cite, each proved once. There is no code here: the words are in
//! specs/, the lemmas in proofs/.
#![tactic(auto)]
