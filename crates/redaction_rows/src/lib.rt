//! Redactions over a journal of three blocks: what one leaves of the state and of a history, and which are refused.
//! The rows stand in proofs/.
#![tactic(auto)]
