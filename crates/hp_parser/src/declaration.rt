//! Types, constants and declarations.
ghost use Rattle.std.specs.Prelude.{◌≡◌, ◌<◌, ◌≤◌, List, map, length, pos, IfOk, [], ◌∷◌};
ghost use Rattle.hp_base.specs.declared.limit.What.TheVariants.{Depth};
ghost use Rattle.hp_lexer.specs.declared.token.Keyword.TheVariants.{On, Last};
ghost use Rattle.hp_lexer.specs.declared.token.Sign.TheVariants.{Comma, Semicolon};
ghost use Rattle.hp_tree.specs.DeclView.{clock_seen};
ghost use Rattle.hp_parser.specs.BlockGrammar.{names, type, typed, constant, declared, last_declaration, declarations, entry_declarations, step, clock_of, local, locals, variables, all_or_none, placed};
ghost use Rattle.hp_parser.specs.Grammar.{behind, many};
ghost use Rattle.hp_parser.specs.Lexemes.{is_ahead};
ghost use Rattle.hp_lexer.specs.Spelling.{greatest_number};
ghost use Rattle.hp_parser.specs.Limits.{less};
ghost use Rattle.hp_parser.specs.Nesting.{AreShort, last_if, if_left, entry_read};
ghost use Rattle.hp_parser.specs.Tokens.{begins_declaration, keyword, sign_of, small, number, constructor, constructor_of, number_of};
ghost use Rattle.hp_parser.specs.Outcomes.{Gives};
ghost use Rattle.hp_parser.specs.Reading.{Reader, reading, read_token, read_convert, read_behind, read_names};
ghost use Rattle.hp_parser.specs.Seen.{word_seen};

use crate::fault::{Fault, Stop};
use crate::measured::cons;
use crate::reader::{Reader, Word};
use hp_base::{Const, Name, Span, Ty, What};
use hp_lexer::{Keyword, Sign};
use hp_tree::{Cons, Decl, copy_clock};
use std::alloc::{AllocError, Global};

/// What is left of a number where some are taken.
fn less(left: Option<usize>, taken: usize) -> Option<usize>
    ensures { result ≡ less left taken }
{
    match left {
        None => None,
        Some(n) => Some(n.saturating_sub(taken)),
    }
}

/// The declaration of a name.
fn declaration(
    alloc: Global,
    name: Word,
    ty: &Ty,
    clock: &Option<Vec<(Cons, Name)>>,
) -> Result<Decl, AllocError>
    requires { length name.text.now ≤ 255 }
    ensures { IfOk result (λ d. d ≡ declared ty.now (clock_seen clock.now) (word_seen name.entry)) }
{
    let ty = ty.copy(alloc)?;
    let clock = copy_clock(alloc, clock)?;
    Ok(Decl {
        name: Name::new(alloc, name.text)?,
        ty,
        last: None,
        clock,
        span: name.span,
    })
}

/// The declarations of some names, which have one type and one clock.
#[tactic(auto, using(crate::proofs::Short::short_at, std::proofs::lemmas::List::map_more))]
fn declared(
    alloc: Global,
    names: &[Word],
    ty: &Ty,
    clock: &Option<Vec<(Cons, Name)>>,
) -> Result<Vec<Decl>, AllocError>
    requires { AreShort names.now }
    ensures { IfOk result (λ ds. ds.items ≡ map (λ w. declared ty.now (clock_seen clock.now) (word_seen w)) names.now) }
{
    let mut declarations = Vec::new(alloc);
    for name in names {
        declarations.push(declaration(alloc, *name, ty, clock)?)?;
    }
    Ok(declarations)
}

impl<'t> Reader<'t> {
    /// A small name.
    pub(crate) fn small_name(&mut self) -> Result<Name, Stop>
        ensures { Gives (λ name. name) result self.new (read_convert (λ t. t.bytes) (read_token small) self.old) }
    {
        let word = self.small()?;
        Ok(Name::new(self.alloc, word.text)?)
    }

    /// A small name with its place.
    pub(crate) fn placed_name(&mut self) -> Result<(Name, Span), Stop>
        ensures { Gives (λ name. name) result self.new (read_convert placed (read_token small) self.old) }
    {
        let word = self.small()?;
        Ok((Name::new(self.alloc, word.text)?, word.span))
    }

    /// `bool`, `int`, or the name of an enumeration.
    fn ty(&mut self) -> Result<Ty, Stop>
        ensures { Gives (λ ty. ty) result self.new (type reading self.old) }
    {
        if self.is_keyword(Keyword::Bool) {
            self.keyword(Keyword::Bool)?;
            Ok(Ty::Bool)
        } else if self.is_keyword(Keyword::Int) {
            self.keyword(Keyword::Int)?;
            Ok(Ty::Int)
        } else {
            Ok(Ty::Enum(self.small_name()?))
        }
    }

    /// A comma and a name.
    #[tactic(auto, using(crate::proofs::NameRounds::next_strict))]
    fn next_name(&mut self) -> Result<Word<'t>, Stop>
        ensures read { Gives word_seen result self.new (behind reading (sign_of Comma) (read_token small) self.old) }
        ensures shorter { IfOk result (λ w. length self.new < length self.old) }
        ensures within { IfOk result (λ w. length w.text.now ≤ 255) }
    {
        self.sign(Sign::Comma)?;
        self.small()
    }

    /// Names with commas between them.
    #[tactic(auto, using(crate::proofs::NameRounds::names_begin, crate::proofs::NameRounds::names_end, crate::proofs::NameRounds::names_pushed, crate::proofs::Short::short_none, crate::proofs::Short::short_pushed))]
    pub(crate) fn names(&mut self) -> Result<Vec<Word<'t>>, Stop>
        ensures read { Gives (λ ws. map word_seen ws.items) result self.new (names reading self.old) }
        ensures within { IfOk result (λ ws. AreShort ws.items) }
    {
        let mut names = Vec::new(self.alloc);
        names.push(self.small()?)?;
        while self.is_sign(Sign::Comma) {
            names.push(self.next_name()?)?;
        }
        Ok(names)
    }

    /// `: ty`
    fn typed(&mut self) -> Result<Ty, Stop>
        ensures { Gives (λ ty. ty) result self.new (typed reading self.old) }
    {
        self.sign(Sign::Colon)?;
        self.ty()
    }

    /// `false`, `true` or a capital name, with its place.
    pub(crate) fn placed_constructor(&mut self) -> Result<(Cons, Span), Stop>
        ensures { Gives (λ r. r) result self.new (read_convert (λ t. (constructor_of t, t.span)) (read_token constructor) self.old) }
    {
        let word = self.constructor()?;
        Ok((cons(self.alloc, word)?, word.span))
    }

    /// The same without its place.
    fn cons(&mut self) -> Result<Cons, Stop>
        ensures { Gives (λ cons. cons) result self.new (read_convert constructor_of (read_token constructor) self.old) }
    {
        let (cons, _) = self.placed_constructor()?;
        Ok(cons)
    }

    /// A number, at most the greatest of a source text.
    fn natural(&mut self) -> Result<u32, Stop>
        ensures read { Gives (λ n. n) result self.new (read_convert number_of (read_token number) self.old) }
        ensures within { IfOk result (λ n. n ≤ greatest_number) }
    {
        let word = self.number()?;
        match hp_lexer::number(word.text) {
            Some(n) => Ok(n),
            None => unreachable!(),
        }
    }

    /// A constructor, or a number that a `-` may precede.
    fn constant(&mut self) -> Result<Const, Stop>
        ensures { Gives (λ c. c) result self.new (constant reading self.old) }
    {
        if self.is_constructor() {
            return match self.cons()? {
                Cons::False => Ok(Const::B(false)),
                Cons::True => Ok(Const::B(true)),
                Cons::Named(name) => Ok(Const::E(name)),
            };
        }
        if self.is_sign(Sign::Minus) {
            self.sign(Sign::Minus)?;
            return Ok(Const::I(-(self.natural()? as i32)));
        }
        Ok(Const::I(self.natural()? as i32))
    }

    /// `last x : ty = c`
    fn last_declaration(&mut self) -> Result<Decl, Stop>
        ensures { Gives (λ d. d) result self.new (last_declaration reading self.old) }
    {
        self.keyword(Keyword::Last)?;
        let word = self.small()?;
        let ty = self.typed()?;
        self.sign(Sign::Equal)?;
        let first = self.constant()?;
        Ok(Decl {
            name: Name::new(self.alloc, word.text)?,
            ty,
            last: Some(first),
            clock: None,
            span: word.span,
        })
    }

    /// `on c ( x )`
    fn step(&mut self) -> Result<(Cons, Name), Stop>
        ensures { Gives (λ s. s) result self.new (step reading self.old) }
    {
        self.keyword(Keyword::On)?;
        let word = self.constructor()?;
        self.sign(Sign::Open)?;
        let name = self.small()?;
        self.sign(Sign::Close)?;
        Ok((cons(self.alloc, word)?, Name::new(self.alloc, name.text)?))
    }

    /// The steps of a clock, outermost first.
    #[tactic(auto, using(crate::proofs::DeclarationRounds::step_strict, crate::proofs::DeclarationRounds::path_ends, crate::proofs::DeclarationRounds::path_pushed))]
    fn path(&mut self) -> Result<Vec<(Cons, Name)>, Stop>
        ensures { Gives (λ path. path.items) result self.new (many reading (keyword On) (step reading) self.old) }
    {
        let mut path = Vec::new(self.alloc);
        while self.is_keyword(Keyword::On) {
            path.push(self.step()?)?;
        }
        Ok(path)
    }

    /// The steps of a clock, where there are any.
    fn clock(&mut self) -> Result<Option<Vec<(Cons, Name)>>, Stop>
        ensures { Gives clock_seen result self.new (read_convert clock_of (many reading (keyword On) (step reading)) self.old) }
    {
        let path = self.path()?;
        if path.is_empty() {
            Ok(None)
        } else {
            Ok(Some(path))
        }
    }

    /// `last x : ty = c`, or names with a type and the clock that they have.
    #[tactic(auto, using(crate::proofs::DeclarationRounds::local_parts, crate::proofs::DeclarationRounds::declared_words))]
    fn local(&mut self) -> Result<Vec<Decl>, Stop>
        ensures { Gives (λ ds. ds.items) result self.new (local reading self.old) }
    {
        if self.is_keyword(Keyword::Last) {
            return self.last_alone();
        }
        let names = self.names()?;
        let ty = self.typed()?;
        let clock = self.clock()?;
        Ok(declared(self.alloc, &names, &ty, &clock)?)
    }

    /// A declaration that is `last`, as a list.
    fn last_alone(&mut self) -> Result<Vec<Decl>, Stop>
        ensures { Gives (λ ds. ds.items) result self.new (read_convert (λ d. d ∷ []) (last_declaration reading) self.old) }
    {
        let mut alone = Vec::new(self.alloc);
        alone.push(self.last_declaration()?)?;
        Ok(alone)
    }

    /// Whether a declaration is ahead.
    fn is_declaration(&self) -> bool
        ensures { result ≡ is_ahead begins_declaration self.now }
    {
        self.is_small() || self.is_keyword(Keyword::Last)
    }

    /// Local declarations with semicolons between them; a semicolon may end them.
    #[tactic(auto, using(crate::proofs::DeclarationRounds::locals_begin, crate::proofs::DeclarationRounds::locals_end, crate::proofs::DeclarationRounds::locals_close, crate::proofs::DeclarationRounds::locals_refused, crate::proofs::DeclarationRounds::locals_more, crate::proofs::DeclarationRounds::locals_shrinks))]
    fn locals(&mut self) -> Result<Vec<Decl>, Stop>
        ensures { Gives (λ ds. ds.items) result self.new (locals reading self.old) }
    {
        let mut locals = self.local()?;
        while self.is_sign(Sign::Semicolon) {
            self.sign(Sign::Semicolon)?;
            if !self.is_declaration() {
                return Ok(locals);
            }
            let mut more = self.local()?;
            locals.append(&mut more)?;
        }
        Ok(locals)
    }

    /// `var` and local declarations, or nothing.
    pub(crate) fn variables(&mut self) -> Result<Vec<Decl>, Stop>
        ensures { Gives (λ ds. ds.items) result self.new (read_convert all_or_none (variables reading) self.old) }
    {
        if !self.is_keyword(Keyword::Var) {
            return Ok(Vec::new(self.alloc));
        }
        self.keyword(Keyword::Var)?;
        self.locals()
    }

    /// One more name, where one is left; a comma is ahead.
    fn name_within(&mut self, what: What, left: Option<usize>) -> Result<Word<'t>, Stop>
        ensures read { Gives word_seen result self.new (if_left what left (read_behind (sign_of Comma) (read_token small)) self.old) }
        ensures within { IfOk result (λ w. length w.text.now ≤ 255) }
    {
        if left == Some(0) {
            return Err(Stop::Fault(Fault::Limit(what)));
        }
        self.sign(Sign::Comma)?;
        self.small()
    }

    /// Names with commas between them, of which so many are left; the first is there in any case.
    #[tactic(auto, using(crate::proofs::DeclarationRounds::within_begin, crate::proofs::DeclarationRounds::within_end, crate::proofs::DeclarationRounds::within_refused, crate::proofs::DeclarationRounds::within_pushed, crate::proofs::DeclarationRounds::within_shrinks, crate::proofs::Short::short_none, crate::proofs::Short::short_pushed))]
    fn names_within(&mut self, what: What, left: Option<usize>) -> Result<Vec<Word<'t>>, Stop>
        ensures read { Gives (λ ws. map word_seen ws.items) result self.new (read_names what (read_token small) left self.old) }
        ensures within { IfOk result (λ ws. AreShort ws.items) }
    {
        let mut names = Vec::new(self.alloc);
        names.push(self.small()?)?;
        let mut left = less(left, 1);
        while self.is_sign(Sign::Comma) {
            names.push(self.name_within(what, left)?)?;
            left = less(left, 1);
        }
        Ok(names)
    }

    /// Whether a declaration that is `last` is ahead, where it may be.
    fn is_last(&self, may_last: bool) -> bool
        ensures { result ≡ is_ahead (last_if may_last) self.now }
    {
        may_last && self.is_keyword(Keyword::Last)
    }

    /// A declaration that is `last`, where it may be, or names with their type.
    #[tactic(auto, using(crate::proofs::DeclarationRounds::entry_parts, crate::proofs::DeclarationRounds::declared_words))]
    fn entry(&mut self, what: What, may_last: bool, left: Option<usize>) -> Result<Vec<Decl>, Stop>
        ensures { Gives (λ ds. ds.items) result self.new (read_convert entry_declarations (entry_read what may_last left) self.old) }
    {
        if self.is_last(may_last) {
            return self.last_alone();
        }
        let names = self.names_within(what, left)?;
        let ty = self.typed()?;
        Ok(declared(self.alloc, &names, &ty, &None)?)
    }

    /// A further one, where a name is left; a semicolon is ahead.
    fn next_entry(
        &mut self,
        what: What,
        may_last: bool,
        left: Option<usize>,
    ) -> Result<Vec<Decl>, Stop>
        ensures { Gives (λ ds. ds.items) result self.new (if_left what left (read_behind (sign_of Semicolon) (read_convert entry_declarations (entry_read what may_last left))) self.old) }
    {
        if left == Some(0) {
            return Err(Stop::Fault(Fault::Limit(what)));
        }
        self.sign(Sign::Semicolon)?;
        self.entry(what, may_last, left)
    }

    /// Declarations with semicolons between them, of at most `left` names; `None` is no limit.
    #[tactic(auto, using(crate::proofs::DeclarationRounds::declarations_begin, crate::proofs::DeclarationRounds::declarations_end, crate::proofs::DeclarationRounds::declarations_refused, crate::proofs::DeclarationRounds::declarations_more, crate::proofs::DeclarationRounds::declarations_shrink))]
    pub(crate) fn declarations(
        &mut self,
        what: What,
        left: Option<usize>,
        may_last: bool,
    ) -> Result<Vec<Decl>, Stop>
        ensures { Gives (λ ds. ds.items) result self.new (declarations reading what left (last_if may_last) self.old) }
    {
        let mut declarations = self.entry(what, may_last, left)?;
        let mut left = less(left, declarations.len());
        while self.is_sign(Sign::Semicolon) {
            let mut more = self.next_entry(what, may_last, left)?;
            left = less(left, more.len());
            declarations.append(&mut more)?;
        }
        Ok(declarations)
    }
}
