ghost use Rattle.std.specs.Prelude.{◌≡◌, reverse};
ghost use Rattle.ion_model.specs.Table as table;
ghost use Rattle.ion_values.specs.declared.fault.IonKind.TheVariants as fault;
ghost use Rattle.ion_model.specs.Read.{finish, finish_at, may_end, refused};
ghost use Rattle.ion_text.specs.Stream.{open_of, Takes, Leaves, Gives};

use crate::stream::ReadFault;
use crate::stream::frames::{
    annotate, body_of, is_symbol_table, may_begin, may_close, may_comma, may_name, opened, put,
    settle, settle_before,
};
use containers::Sequence;
use ion_model::{Frame, Last, Members, Token};
use ion_values::{Body, IonFault, IonKind, OutOfMemory, Text, Values};
use std::alloc::Global;
use std::mem;

/// Why a token isn't taken.
#[derive(Drop)]
pub enum Refused {
    /// It may not stand there.
    Kind(IonKind),
    /// Memory ran out.
    Memory,
}

impl From<OutOfMemory> for Refused {
    ghost use Rattle.ion_text.specs.declared.stream.reader.Refused.TheVariants.{Memory};

    ghost from_gives = { λ _ e. e ≡ Memory };

    fn from(_error: OutOfMemory) -> Refused {
        Refused::Memory
    }
}

/// The open containers: the innermost, and those around it, the outermost first.
#[derive(Drop)]
pub struct Reader {
    pub outer: Vec<Frame>,
    pub inner: Frame,
}

impl Reader {
    /// The top level of a text, before its first token. It takes no memory.
    pub fn new(alloc: Global) -> Reader
        ensures { open_of result ≡ table.start }
    {
        Reader {
            outer: Vec::new(alloc),
            inner: opened(alloc, Members::Stream(Sequence::new(alloc))),
        }
    }

    /// Takes one token more, where it may come next.
    pub fn accept(&mut self, alloc: Global, depth: u32, token: Token) -> Result<(), Refused>
        ensures { Takes (open_of self.new) result (table.accept depth (open_of self.old) token) }
    {
        settle_before(alloc, &mut self.inner, &token)?;
        self.put_token(alloc, depth, token)?;
        Ok(())
    }

    /// Takes one token more, where what was read last is a value unless the token belongs to it.
    fn put_token(&mut self, alloc: Global, depth: u32, token: Token) -> Result<(), Refused>
        ensures { Takes (open_of self.new) result (table.put depth token self.old.inner
            (reverse self.old.outer.items)) }
    {
        match token {
            Token::Scalar(scalar) => self.add(alloc, body_of(scalar)),
            Token::Symbol { text, quoted } => self.symbol(text, quoted),
            Token::Operator(text) => self.operator(text),
            Token::String(text) => self.string(alloc, text),
            Token::Segment(text) => self.segment(text),
            Token::ListOpen => self.begin(alloc, depth, Members::List(Sequence::new(alloc))),
            Token::SexpOpen => self.begin(alloc, depth, Members::Sexp(Sequence::new(alloc))),
            Token::StructOpen => self.begin_struct(alloc, depth),
            Token::ListClose => self.close_list(alloc),
            Token::SexpClose => self.close_sexp(alloc),
            Token::StructClose => self.close_struct(alloc),
            Token::Comma => self.comma(),
            Token::Colon => self.colon(),
            Token::DoubleColon => self.annotate(),
        }
    }

    /// Adds a value to the innermost container.
    fn add(&mut self, alloc: Global, body: Body) -> Result<(), Refused>
        ensures { Takes (open_of self.new) result (table.add body self.old.inner (reverse self.old.outer.items)) }
    {
        if !may_begin(&self.inner) {
            return Err(Refused::Kind(IonKind::BadToken));
        }
        put(alloc, &mut self.inner, body)?;
        Ok(())
    }

    /// Takes a symbol, which is a name in a struct, and else may become an annotation or a value.
    fn symbol(&mut self, text: Text, quoted: bool) -> Result<(), Refused>
        ensures { Takes (open_of self.new) result (table.symbol text quoted self.old.inner
            (reverse self.old.outer.items)) }
    {
        if may_name(&self.inner) {
            self.inner.name = text;
            self.inner.last = Last::Name;
            return Ok(());
        }
        if !may_begin(&self.inner) {
            return Err(Refused::Kind(IonKind::BadToken));
        }
        self.inner.last = Last::Symbol { text, quoted };
        Ok(())
    }

    /// Takes an operator, which is a symbol in a sexp.
    fn operator(&mut self, text: Text) -> Result<(), Refused>
        ensures { Takes (open_of self.new) result (table.operator text self.old.inner.members self.old.inner
            (reverse self.old.outer.items)) }
    {
        match self.inner.members {
            Members::Sexp(_) => self.symbol(text, false),
            _ => Err(Refused::Kind(IonKind::BadToken)),
        }
    }

    /// Takes a string, which is a name in a struct, and else a value.
    fn string(&mut self, alloc: Global, text: Text) -> Result<(), Refused>
        ensures { Takes (open_of self.new) result (table.string text self.old.inner (reverse self.old.outer.items)) }
    {
        if may_name(&self.inner) {
            self.inner.name = text;
            self.inner.last = Last::Name;
            return Ok(());
        }
        self.add(alloc, Body::String(text))?;
        Ok(())
    }

    /// Takes a segment of a long string, which joins those before it.
    fn segment(&mut self, more: Text) -> Result<(), Refused>
        ensures { Takes (open_of self.new) result (table.segment more self.old.inner.last self.old.inner
            (reverse self.old.outer.items)) }
    {
        match &mut self.inner.last {
            Last::LongString(text) => {
                text.push_str(more.as_str())?;
                Ok(())
            }
            Last::LongName => {
                self.inner.name.push_str(more.as_str())?;
                Ok(())
            }
            _ => self.first_segment(more),
        }
    }

    /// Takes the first segment of a name or a value.
    fn first_segment(&mut self, text: Text) -> Result<(), Refused>
        ensures { Takes (open_of self.new) result (table.first_segment text self.old.inner
            (reverse self.old.outer.items)) }
    {
        if may_name(&self.inner) {
            self.inner.name = text;
            self.inner.last = Last::LongName;
            return Ok(());
        }
        if !may_begin(&self.inner) {
            return Err(Refused::Kind(IonKind::BadToken));
        }
        self.inner.last = Last::LongString(text);
        Ok(())
    }

    /// Opens a struct in the innermost container.
    fn begin_struct(&mut self, alloc: Global, depth: u32) -> Result<(), Refused>
        ensures { Takes (open_of self.new) result (table.begin_struct depth self.old.inner
            (reverse self.old.outer.items)) }
    {
        if is_symbol_table(&self.inner) {
            return Err(Refused::Kind(IonKind::SymbolIdRefused));
        }
        self.begin(alloc, depth, Members::Struct(Sequence::new(alloc)))?;
        Ok(())
    }

    /// Opens a container in the innermost one.
    fn begin(&mut self, alloc: Global, depth: u32, members: Members) -> Result<(), Refused>
        ensures { Takes (open_of self.new) result (table.begin depth members self.old.inner
            (reverse self.old.outer.items)) }
    {
        if depth as usize <= self.outer.len() {
            return Err(Refused::Kind(IonKind::TooDeep));
        }
        if !may_begin(&self.inner) {
            return Err(Refused::Kind(IonKind::BadToken));
        }
        let around = mem::replace(&mut self.inner, opened(alloc, members));
        match self.outer.push(around) {
            Ok(()) => Ok(()),
            Err(_) => Err(Refused::Memory),
        }
    }

    /// Ends the innermost container as a list.
    fn close_list(&mut self, alloc: Global) -> Result<(), Refused>
        ensures { Takes (open_of self.new) result (table.close table.list_of self.old.inner
            (reverse self.old.outer.items)) }
    {
        match self.leave() {
            Some(Members::List(values)) => {
                put(alloc, &mut self.inner, Body::List(values.fitted()))?;
                Ok(())
            }
            _ => Err(Refused::Kind(IonKind::BadToken)),
        }
    }

    /// Ends the innermost container as a sexp.
    fn close_sexp(&mut self, alloc: Global) -> Result<(), Refused>
        ensures { Takes (open_of self.new) result (table.close table.sexp_of self.old.inner
            (reverse self.old.outer.items)) }
    {
        match self.leave() {
            Some(Members::Sexp(values)) => {
                put(alloc, &mut self.inner, Body::Sexp(values.fitted()))?;
                Ok(())
            }
            _ => Err(Refused::Kind(IonKind::BadToken)),
        }
    }

    /// Ends the innermost container as a struct.
    fn close_struct(&mut self, alloc: Global) -> Result<(), Refused>
        ensures { Takes (open_of self.new) result (table.close table.struct_of self.old.inner
            (reverse self.old.outer.items)) }
    {
        match self.leave() {
            Some(Members::Struct(fields)) => {
                put(alloc, &mut self.inner, Body::Struct(fields.fitted()))?;
                Ok(())
            }
            _ => Err(Refused::Kind(IonKind::BadToken)),
        }
    }

    /// Leaves the innermost container, where it may end, for the one around it, and gives its members.
    fn leave(&mut self) -> Option<Members>
        ensures { Leaves self.old result self.new }
    {
        if !may_close(&self.inner.last) {
            return None;
        }
        let around = self.outer.pop()?;
        let ended = mem::replace(&mut self.inner, around);
        Some(ended.members)
    }

    /// Takes the colon behind a name.
    fn colon(&mut self) -> Result<(), Refused>
        ensures { Takes (open_of self.new) result (table.colon self.old.inner.last self.old.inner
            (reverse self.old.outer.items)) }
    {
        match self.inner.last {
            Last::Name | Last::LongName => {
                self.inner.last = Last::Colon;
                Ok(())
            }
            _ => Err(Refused::Kind(IonKind::BadToken)),
        }
    }

    /// Takes the comma behind a member.
    fn comma(&mut self) -> Result<(), Refused>
        ensures { Takes (open_of self.new) result (table.comma self.old.inner (reverse self.old.outer.items)) }
    {
        if !may_comma(&self.inner) {
            return Err(Refused::Kind(IonKind::BadToken));
        }
        self.inner.last = Last::Comma;
        Ok(())
    }

    /// Makes an annotation of the symbol that was read last.
    fn annotate(&mut self) -> Result<(), Refused>
        ensures { Takes (open_of self.new) result (table.annotate self.old.inner.last self.old.inner
            (reverse self.old.outer.items)) }
    {
        match mem::replace(&mut self.inner.last, Last::Annotation) {
            Last::Symbol { text, quoted } => {
                annotate(&mut self.inner, text, quoted)?;
                Ok(())
            }
            _ => Err(Refused::Kind(IonKind::BadToken)),
        }
    }

    /// The values that were read, at the end of the text.
    pub fn finish(self, alloc: Global, end: usize) -> Result<Values, ReadFault>
        ensures { Gives result (finish end (open_of self)) }
    {
        let Reader { outer, mut inner } = self;
        if !outer.is_empty() {
            return Err(unclosed(end));
        }
        settle(alloc, &mut inner)?;
        let values = all_values(inner, end)?;
        Ok(values)
    }
}

/// The values of the whole text, which doesn't end behind an annotation.
fn all_values(whole: Frame, end: usize) -> Result<Values, ReadFault>
    ensures { Gives result (finish_at end whole) }
{
    let Frame { members, last, .. } = whole;
    if !may_end(&last) {
        return Err(unclosed(end));
    }
    match members {
        Members::Stream(values) => Ok(values),
        _ => Err(unclosed(end)),
    }
}

/// Whether a text may end behind this.
fn may_end(last: &Last) -> bool
    ensures { result ≡ may_end last.now }
{
    !matches!(last, Last::Annotation)
}

/// The text ends too early, at its end.
fn unclosed(end: usize) -> ReadFault
    ensures { Gives (Err result) (refused end fault.Unclosed) }
{
    ReadFault::Ion(IonFault {
        at: end as u64,
        kind: IonKind::Unclosed,
    })
}
