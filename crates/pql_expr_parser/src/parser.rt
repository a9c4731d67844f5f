//! A parser: the tokens that are left, and the small steps over them.
ghost use Rattle.std.specs.Prelude.{◌≡◌, ◌∷◌, ◌++◌, [], is_some, IfOk, OnOk};
ghost use Rattle.std.specs.Option.{option_copied};
ghost use Rattle.pql_model.specs.Words as words;
ghost use Rattle.pql_model.specs.Productions as spec;
ghost use Rattle.pql_model.specs.Productions.{advanced, front, token_of};
ghost use Rattle.pql_model.specs.Expressions.{constant_of, tall};
ghost use Rattle.pql_expr_parser.specs.Closed as closed;
ghost use Rattle.pql_expr_parser.specs.Fronts.{any_name, string_of};
ghost use Rattle.pql_expr_parser.specs.Gives.{seen, tall_of, Descends, Gives, Takes};

use crate::answer::ParseAnswer;
use crate::constants::{constant_of, is_constant};
use crate::words::{any_name_of, is_symbol, is_word, name_of};
use containers::{Boxed, OutOfMemory, Text};
use pql_model::{Expr, Located, Mark, Marks, ParseKind, Place, Role, Token};
use std::alloc::Global;

/// The tokens that are left, the marks so far, and the part of the statement that is being read.
#[derive(Drop)]
pub struct Parser<'a> {
    pub alloc: Global,
    pub rest: &'a [Located],
    pub marks: Marks,
    pub place: Place,
}

/// What was read, and how many levels its expressions have.
#[derive(Drop)]
pub struct Measured<T> {
    pub tree: T,
    pub height: usize,
}

/// An expression on the heap, measured.
pub type MeasuredExpr = Measured<Boxed<Expr>>;

/// Why a token is refused: for its own reason if it has one, at the text's end for that, and else for
/// this one.
fn kind_at(kind: ParseKind, token: &Token) -> ParseKind
    ensures { result ≡ spec.kind_at kind token.now }
{
    match token {
        Token::Bad(own) => *own,
        Token::End => ParseKind::TextEnds,
        _ => kind,
    }
}

impl<'a> Parser<'a> {
    /// The offset of the token in front.
    pub fn at(&self) -> usize
        ensures { result ≡ (front (seen self.now)).at }
    {
        match self.rest.first() {
            Some(front) => front.at,
            None => 0,
        }
    }

    /// The fault of the token in front.
    pub fn refused(&self, kind: ParseKind) -> ParseAnswer
        ensures { result ≡ ParseAnswer.Fault (front (seen self.now)).at (spec.kind_at kind (token_of (seen self.now))) }
    {
        match self.rest.first() {
            Some(front) => ParseAnswer::Fault {
                at: front.at as u64,
                kind: kind_at(kind, &front.token),
            },
            None => ParseAnswer::Fault {
                at: 0,
                kind: ParseKind::TextEnds,
            },
        }
    }

    /// Whether the token in front is this word.
    pub fn is_word(&self, word: &str) -> bool
        ensures { result ≡ words.is_word word.now (token_of (seen self.now)) }
    {
        match self.rest.first() {
            Some(front) => is_word(&front.token, word),
            None => false,
        }
    }

    /// Whether the token in front is the symbol that is spelled so.
    pub fn is_symbol(&self, text: &str) -> bool
        ensures { result ≡ words.is_symbol text.now (token_of (seen self.now)) }
    {
        match self.rest.first() {
            Some(front) => is_symbol(&front.token, text),
            None => false,
        }
    }

    /// Whether the token behind the one in front is the symbol that is spelled so.
    pub fn is_symbol_behind(&self, text: &str) -> bool
        ensures { result ≡ words.is_symbol text.now (token_of (advanced (seen self.now))) }
    {
        match self.rest {
            [_, second, ..] => is_symbol(&second.token, text),
            _ => false,
        }
    }

    /// Whether the token in front is a literal or a `?`.
    pub fn is_constant(&self) -> bool
        ensures { result ≡ is_some (constant_of (token_of (seen self.now))) }
    {
        match self.rest.first() {
            Some(front) => is_constant(&front.token),
            None => false,
        }
    }

    /// Whether the token in front is a name.
    pub fn is_name(&self) -> bool
        ensures { result ≡ is_some (words.name_of (token_of (seen self.now))) }
    {
        match self.rest.first() {
            Some(front) => name_of(&front.token).is_some(),
            None => false,
        }
    }

    /// The literal or `?` in front, copied, or None where the token is none.
    pub fn constant(&self) -> Result<Option<Expr>, OutOfMemory>
        ensures { IfOk result (λ e. e ≡ constant_of (token_of (seen self.now))) }
    {
        match self.rest.first() {
            Some(front) => constant_of(self.alloc, &front.token),
            None => Ok(None),
        }
    }

    /// The string in front, copied, or None where the token is none.
    pub fn string(&self) -> Result<Option<Text>, OutOfMemory>
        ensures { IfOk result (λ text. text ≡ string_of (token_of (seen self.now))) }
    {
        match self.rest.first() {
            Some(front) => copied(self.alloc, string_of(&front.token)),
            None => Ok(None),
        }
    }

    /// Goes behind the token in front.
    pub fn advance(&mut self)
        ensures { seen self.new ≡ advanced (seen self.old) }
    {
        match self.rest {
            [_, rest @ ..] => self.rest = rest,
            [] => {}
        }
    }

    /// Takes a word that must come.
    pub fn take_word(&mut self, word: &str) -> Result<(), ParseAnswer>
        ensures { Takes result self.new (words.is_word word.now) (seen self.old) }
    {
        if !self.is_word(word) {
            return Err(self.refused(ParseKind::Unexpected));
        }
        self.advance();
        Ok(())
    }

    /// Takes a symbol that must come.
    pub fn take_symbol(&mut self, text: &str) -> Result<(), ParseAnswer>
        ensures { Takes result self.new (words.is_symbol text.now) (seen self.old) }
    {
        if !self.is_symbol(text) {
            return Err(self.refused(ParseKind::Unexpected));
        }
        self.advance();
        Ok(())
    }

    /// The name in front, copied, or None where the token is none.
    pub fn front_name(&self) -> Result<Option<Text>, OutOfMemory>
        ensures { IfOk result (λ name. name ≡ words.name_of (token_of (seen self.now))) }
    {
        match self.rest.first() {
            Some(front) => copied(self.alloc, name_of(&front.token)),
            None => Ok(None),
        }
    }

    /// Takes a name that must come.
    #[tactic(auto, using(crate::proofs::OpenedNames::name_opens))]
    pub fn name(&mut self) -> Result<Text, ParseAnswer>
        ensures { Gives result self.new (closed.name (seen self.old)) }
    {
        let Some(name) = self.front_name()? else {
            return Err(self.refused(ParseKind::Unexpected));
        };
        self.advance();
        Ok(name)
    }

    /// Takes a name that must come behind a point, where a reserved word is one.
    pub fn any_name(&mut self) -> Result<Text, ParseAnswer>
        ensures { Gives result self.new (any_name (seen self.old)) }
    {
        let Some(name) = self.front_any_name()? else {
            return Err(self.refused(ParseKind::Unexpected));
        };
        self.advance();
        Ok(name)
    }

    fn front_any_name(&self) -> Result<Option<Text>, OutOfMemory>
        ensures { IfOk result (λ name. name ≡ words.any_name_of (token_of (seen self.now))) }
    {
        match self.rest.first() {
            Some(front) => copied(self.alloc, any_name_of(&front.token)),
            None => Ok(None),
        }
    }

    /// Sets a mark at this offset.
    pub fn mark_at(&mut self, at: usize, role: Role) -> Result<(), OutOfMemory>
        ensures { OnOk result (seen self.new ≡ record {
          rest = self.old.rest.now;
          place = self.old.place;
          marks = self.old.marks ++ record { at = at; place = self.old.place; role = role } ∷ [];
        }) }
    {
        self.marks.push(Mark {
            at,
            place: self.place,
            role,
        })
    }

    /// Sets a mark at the token in front.
    pub fn mark(&mut self, role: Role) -> Result<(), OutOfMemory>
        ensures { OnOk result (seen self.new ≡ record {
          rest = self.old.rest.now;
          place = self.old.place;
          marks = self.old.marks ++ record {
            at = (front (seen self.old)).at;
            place = self.old.place;
            role = role;
          } ∷ [];
        }) }
    {
        self.mark_at(self.at(), role)
    }

    /// An expression and its number of levels.
    pub fn measured(&self, tree: Expr, height: usize) -> Result<MeasuredExpr, OutOfMemory>
        ensures { IfOk result (λ m. tall_of m ≡ tall tree height) }
    {
        Ok(Measured {
            tree: Boxed::new(self.alloc, tree)?,
            height,
        })
    }

    /// Asks for a level, if one is left.
    pub fn descend(&self, below: usize) -> Result<(), ParseAnswer>
        ensures { Descends result below (seen self.now) }
    {
        if below == 0 {
            Err(self.refused(ParseKind::TooDeep))
        } else {
            Ok(())
        }
    }
}

/// The string that a token is.
fn string_of(token: &Token) -> Option<&str>
    ensures { option_copied result ≡ string_of token.now }
{
    match token {
        Token::String(text) => Some(text.as_str()),
        _ => None,
    }
}

fn copied(alloc: Global, text: Option<&str>) -> Result<Option<Text>, OutOfMemory>
    ensures { IfOk result (λ copy. copy ≡ option_copied text.entry) }
{
    match text {
        Some(text) => Ok(Some(Text::from_text(alloc, text)?)),
        None => Ok(None),
    }
}
