//! Paths.
ghost use Rattle.std.specs.Prelude.{◌≤◌, IfOk, IfSome};
ghost use Rattle.pql_model.specs.Expressions as spec;
ghost use Rattle.pql_expr_parser.specs.Closed as closed;
ghost use Rattle.pql_expr_parser.specs.Gives.{seen, Gives, GivesTall, GivesStep};

use crate::answer::ParseAnswer;
use crate::expressions::{Layer, MOST_LEVELS, read_layer};
use crate::parser::{Measured, Parser};
use crate::primaries::higher;
use containers::{Sequence, Text};
use pql_model::{Path, PathStep, PathSteps};

/// A path that stands in no expression, behind its first name.
#[tactic(auto, using(crate::proofs::OpenedPaths::free_path_opens))]
pub fn free_path(parser: &mut Parser<'_>, first: Text) -> Result<Path, ParseAnswer>
    ensures { Gives result parser.new (spec.free_path first (seen parser.old)) }
{
    let Measured { tree, height: _ } = path_from(parser, MOST_LEVELS, first)?;
    Ok(tree)
}

/// A path after its first name, whose indexes may have `below` levels.
#[tactic(auto, using(crate::proofs::OpenedPaths::path_from_opens))]
#[cycle(expression)]
pub fn path_from(
    parser: &mut Parser<'_>,
    below: usize,
    first: Text,
) -> Result<Measured<Path>, ParseAnswer>
    requires { below ≤ 64 }
    ensures exact { GivesTall result parser.new (closed.path_from below first (seen parser.old)) }
    ensures height { IfOk result (λ m. m.height ≤ below) }
{
    let steps = steps(parser, below)?;
    Ok(Measured {
        tree: Path {
            first,
            steps: steps.tree,
        },
        height: steps.height,
    })
}

/// The steps in front. There are no more of them than tokens.
#[tactic(auto, using(crate::proofs::StepTurns::step_turns))]
#[cycle(expression)]
fn steps(parser: &mut Parser<'_>, below: usize) -> Result<Measured<PathSteps>, ParseAnswer>
    requires { below ≤ 64 }
    ensures exact { GivesTall result parser.new (closed.steps below (seen parser.old)) }
    ensures height { IfOk result (λ m. m.height ≤ below) }
{
    let mut tree = Sequence::new(parser.alloc);
    let mut height = 0;
    let mut more = parser.rest.len();
    'steps: while more > 0 {
        more -= 1;
        let Some(step) = step(parser, below)? else {
            return Ok(Measured { tree, height });
        };
        height = higher(height, step.height);
        tree.push(step.tree)?;
    }
    Ok(Measured { tree, height })
}

/// The step in front, or None where there is none.
#[tactic(auto, using(crate::proofs::StepTurns::step_opens))]
#[cycle(expression)]
fn step(parser: &mut Parser<'_>, below: usize) -> Result<Option<Measured<PathStep>>, ParseAnswer>
    requires { below ≤ 64 }
    ensures exact { GivesStep result parser.new (closed.step below (seen parser.old)) }
    ensures height { IfOk result (λ s. IfSome s (λ m. m.height ≤ below)) }
{
    if parser.is_symbol(".") {
        parser.advance();
        let tree = PathStep::Field(parser.any_name()?);
        return Ok(Some(Measured { tree, height: 0 }));
    }
    if !parser.is_symbol("[") {
        return Ok(None);
    }
    parser.descend(below)?;
    parser.advance();
    let index = read_layer(parser, Layer::Disjunction, below)?;
    parser.take_symbol("]")?;
    Ok(Some(Measured {
        tree: PathStep::Index(index.tree.into_inner()),
        height: index.height,
    }))
}
