//! The digest that a commit sends.
ghost use Rattle.std.specs.Prelude.{◌≡◌, fold, IfOk};
ghost use Rattle.hash_model.specs.PairHash.{dot32};
ghost use Rattle.hash_model.specs.Serialize.{hash_of};
ghost use Rattle.ledger_model.specs.Journal.{string};
ghost use Rattle.ledger_model.specs.CommitDigest.{first_digest, with_statement};

use containers::Sequence;
use ion_hash::hash;
use ion_values::{Body, OutOfMemory, Text, Value};
use pair_hash::dot_full;
use pql_model::id_text;
use ql_types::{Hash32, TxId};
use std::alloc::Global;

/// The digest of a transaction that has no statements yet: the hash of its id, a string (Amazon QLDB API
/// reference, "CommitTransactionRequest"; Ion Hash).
pub fn start_digest(alloc: Global, tx: TxId) -> Result<Hash32, OutOfMemory>
    ensures { IfOk result (λ digest. digest ≡ first_digest tx) }
{
    text_hash(alloc, id_text(alloc, tx.raw)?)
}

/// The digest with one statement more: the hash of the one so far and the statement's, which is that of
/// its text, a string, with the hash of each parameter in turn.
pub fn fold_statement(
    alloc: Global,
    so_far: Hash32,
    text: &str,
    params: &[Value],
) -> Result<Hash32, OutOfMemory>
    ensures { IfOk result (λ digest. digest ≡ with_statement so_far text.now params.now) }
{
    let text = text_hash(alloc, Text::from_text(alloc, text)?)?;
    let statement = with_params(alloc, text, params)?;
    Ok(dot_full(&so_far, &statement))
}

/// The hash with that of each parameter in turn.
fn with_params(alloc: Global, start: Hash32, params: &[Value]) -> Result<Hash32, OutOfMemory>
    ensures { IfOk result (λ hash. hash ≡ fold (λ so_far param. dot32 so_far (hash_of param)) start params.now) }
{
    let mut so_far = start;
    'params: for param in params {
        let next = hash(alloc, param)?;
        so_far = dot_full(&so_far, &next);
    }
    Ok(so_far)
}

/// The hash of a string.
fn text_hash(alloc: Global, text: Text) -> Result<Hash32, OutOfMemory>
    ensures { IfOk result (λ hash. hash ≡ hash_of (string text)) }
{
    let value = Value {
        annotations: Sequence::new(alloc),
        body: Body::String(text),
    };
    hash(alloc, &value)
}
