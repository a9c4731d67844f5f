//! What a transaction did not read, later blocks may change: the laws on which the detection of conflicts rests,
//! over the ledger's definitions alone.
#![tactic(auto)]

mod laws;

pub use laws::{
    conflict_is_first, covered_rows_are_framed, documents_are_still, following_touches,
    footprint_covers, footprint_restricts, frame_of_rows, meaning_is_kept, name_is_framed,
    named_are_unrevised, own_is_apart, restriction, rows_are_framed, run_is_kept, run_is_settled,
    run_owns_all, source_is_still, statement_is_framed, stillness, stillness_of_own,
    stillness_with_pending, transaction_is_framed, undamaged_follow,
};
