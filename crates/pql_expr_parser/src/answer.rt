use containers::OutOfMemory;
use pql_model::ParseKind;

/// Why a text is no statement, and the offset of the first byte of the token at fault.
#[derive(Clone, Copy, Debug, PartialEq, Eq)]
pub enum ParseAnswer {
    Fault { at: u64, kind: ParseKind },
    OutOfMemory,
}

impl From<OutOfMemory> for ParseAnswer {
    ghost use Rattle.std.specs.Prelude.{◌≡◌};
    ghost use Rattle.pql_expr_parser.specs.declared.answer.ParseAnswer.TheVariants as answer;

    ghost from_gives = { λ _ e. e ≡ answer.OutOfMemory };

    fn from(_error: OutOfMemory) -> ParseAnswer {
        ParseAnswer::OutOfMemory
    }
}
