ghost use Rattle.pql_model.specs.MeaningDepth.{DepthIsBounded};
ghost use Rattle.pql_model.specs.Roots.{TablesAreChanged};
ghost use Rattle.pql_model.specs.Shallow.{AnswersAreShallow, ParsedIsShallow};

/// The value of an expression is at most as much deeper than the deepest of its row, its parameters
/// and its literals as its list and struct constructors nest.
pub fn depth_is_bounded()
    ensures { DepthIsBounded }
{}

/// What a SELECT answers is at most 65 deeper than the deepest of the views' values, of the parameters
/// and 64, where its literals are at most 64 deep and its list and struct constructors nest at most
/// 64 deep.
pub fn answers_are_shallow()
    ensures { AnswersAreShallow }
{}

/// The literals of a SELECT that is read are at most 64 deep, and its list and struct constructors
/// nest at most 64 deep.
pub fn parsed_is_shallow()
    ensures { ParsedIsShallow }
{}

/// A statement that is read changes no documents but those of tables.
pub fn tables_are_changed()
    ensures { TablesAreChanged }
{}
