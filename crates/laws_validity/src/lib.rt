//! Why the block that a transaction becomes is undamaged behind the blocks before it: definitions in specs/ and laws in
//! proofs/.
#![tactic(auto)]
