//! Types, contracts and nodes.

ghost use Rattle.std.specs.Prelude.{◌≡◌, ◌≤◌, ◌<◌, ◌||◌, List, All, map, length, IfOk, Some};
ghost use Rattle.hp_base.specs.declared.limit.What.{What};
ghost use Rattle.hp_parser.specs.ItemReading.{type_read, next_constructor_read, constructor_left, constructors_read, maybe_declarations_read, parameters_read, block_read, clause_read, controls_read, maybe_controls_read, clauses_read, clauses_seen, maybe_block_read, contract_read, node_read, item_read, item_left};
ghost use Rattle.hp_parser.specs.Grammar.{optional};
ghost use Rattle.hp_parser.specs.Lexemes.{is_ahead};
ghost use Rattle.hp_parser.specs.Outcomes.{Gives};
ghost use Rattle.hp_parser.specs.ProgramGrammar.{types_in, block_or_none};
ghost use Rattle.hp_parser.specs.Programs.{read_program};
ghost use Rattle.hp_parser.specs.Reading.{reading};
ghost use Rattle.hp_parser.specs.Seen.{word_seen};
ghost use Rattle.hp_parser.specs.Tokens.{keyword, begins_item};

use crate::fault::{Fault, Stop};
use crate::mode::Mode;
use crate::reader::{Reader, Word};
use hp_base::{Name, What};
use hp_lexer::{Keyword, Sign};
use hp_tree::{Block, Contract, Decl, Expr, Item, Node, Program, TypeDecl};
use std::alloc::{AllocError, Global};

/// How many types a program may have.
const TYPES: usize = 1_000;

/// How many constructors may stand behind the first.
const MORE_CONSTRUCTORS: usize = 63;

/// How many inputs, and how many outputs, a node may have.
const NAMES: usize = 64;

/// How many blocks may stand in each other.
const NEST: usize = 64;

/// What a contract assumes and enforces, and its controllable variables.
#[derive(Debug, Drop)]
pub(crate) struct Clauses {
    pub assume: Option<Expr>,
    pub enforce: Option<Expr>,
    pub controls: Vec<Decl>,
}

/// The names that words spell.
fn names_of(alloc: Global, words: &[Word]) -> Result<Vec<Name>, AllocError>
    requires { All (λ w. length w.text.now ≤ 255) words.now }
    ensures { IfOk result (λ names. names.items ≡ map (λ w. w.text.now) words.now) }
{
    let mut names = Vec::with_capacity(alloc, words.len())?;
    for word in words {
        names.push(Name::new(alloc, word.text)?)?;
    }
    Ok(names)
}

/// A block that is not there has no declarations and no equations.
fn block_or_empty(alloc: Global, block: Option<Block>) -> Block
    ensures { result ≡ block_or_none block }
{
    match block {
        Some(block) => block,
        None => Block {
            locals: Vec::new(alloc),
            eqns: Vec::new(alloc),
        },
    }
}

/// How many types an item is.
fn types_of(item: &Item) -> usize
    ensures { result ≡ types_in item.now }
{
    match item {
        Item::TypeItem(_) => 1,
        Item::NodeItem(_) => 0,
    }
}

impl<'t> Reader<'t> {
    /// `| A`, where so many constructors may be left.
    fn next_constructor(&mut self, left: usize) -> Result<Word<'t>, Stop>
        ensures read { Gives word_seen result self.new (constructor_left left self.old) }
        ensures shorter { IfOk result (λ w. length self.new < length self.old) }
        ensures within { IfOk result (λ w. length w.text.now ≤ 255) }
        ensures some { IfOk result (λ w. 1 ≤ left) }
    {
        if left == 0 {
            return Err(Stop::Fault(Fault::Limit(What::Constructors)));
        }
        self.sign(Sign::Bar)?;
        self.capital()
    }

    /// `A | B ..`
    #[tactic(auto, using(crate::proofs::ItemRounds::constructors_begin, crate::proofs::ItemRounds::constructors_end, crate::proofs::ItemRounds::constructors_pushed, crate::proofs::ItemRounds::constructors_stopped))]
    fn constructors(&mut self) -> Result<Vec<Word<'t>>, Stop>
        ensures read { Gives (λ ws. map word_seen ws.items) result self.new (constructors_read self.old) }
        ensures within { IfOk result (λ ws. All (λ w. length w.text.now ≤ 255) ws.items) }
    {
        let mut words = Vec::new(self.alloc);
        words.push(self.capital()?)?;
        let mut left = MORE_CONSTRUCTORS;
        while self.is_sign(Sign::Bar) {
            words.push(self.next_constructor(left)?)?;
            left -= 1;
        }
        Ok(words)
    }

    /// `type t = A | B ..`
    #[tactic(auto, using(crate::proofs::ItemRounds::names_seen))]
    fn type_declaration(&mut self) -> Result<Item, Stop>
        ensures { Gives (λ item. item) result self.new (type_read self.old) }
    {
        self.keyword(Keyword::Type)?;
        let word = self.small()?;
        self.sign(Sign::Equal)?;
        let words = self.constructors()?;
        Ok(Item::TypeItem(TypeDecl {
            name: Name::new(self.alloc, word.text)?,
            cons: names_of(self.alloc, words.as_slice())?,
            span: word.span,
        }))
    }

    fn maybe_declarations(&mut self, what: What, may_last: bool) -> Result<Vec<Decl>, Stop>
        ensures { Gives (λ ds. ds.items) result self.new (maybe_declarations_read what may_last self.old) }
    {
        if self.is_small() || (may_last && self.is_keyword(Keyword::Last)) {
            return self.declarations(what, Some(NAMES), may_last);
        }
        Ok(Vec::new(self.alloc))
    }

    /// Declarations in parentheses.
    fn parameters(&mut self, what: What, may_last: bool) -> Result<Vec<Decl>, Stop>
        ensures { Gives (λ ds. ds.items) result self.new (parameters_read what may_last self.old) }
    {
        self.sign(Sign::Open)?;
        let declared = self.maybe_declarations(what, may_last)?;
        self.sign(Sign::Close)?;
        Ok(declared)
    }

    /// Declarations, if any, and equations from `let` to `tel`.
    fn whole_block(&mut self) -> Result<Block, Stop>
        ensures { Gives (λ block. block) result self.new (block_read self.old) }
    {
        let locals = self.variables()?;
        self.keyword(Keyword::Let)?;
        let eqns = self.equations(NEST)?;
        self.keyword(Keyword::Tel)?;
        Ok(Block { locals, eqns })
    }

    /// `assume e` or `enforce e`.
    fn clause(&mut self, word: Keyword) -> Result<Expr, Stop>
        ensures { Gives (λ e. e) result self.new (clause_read word self.old) }
    {
        self.keyword(word)?;
        let found = self.any_expression(Mode::Whole)?;
        Ok(found.expr)
    }

    fn maybe_clause(&mut self, word: Keyword) -> Result<Option<Expr>, Stop>
        ensures { Gives (λ e. e) result self.new (optional reading (keyword word) (clause_read word) self.old) }
    {
        if !self.is_keyword(word) {
            return Ok(None);
        }
        Ok(Some(self.clause(word)?))
    }

    /// `with (..)`
    fn controls(&mut self) -> Result<Vec<Decl>, Stop>
        ensures { Gives (λ ds. ds.items) result self.new (controls_read self.old) }
    {
        self.keyword(Keyword::With)?;
        self.sign(Sign::Open)?;
        let controls = self.declarations(What::Inputs, None, false)?;
        self.sign(Sign::Close)?;
        Ok(controls)
    }

    fn maybe_controls(&mut self) -> Result<Vec<Decl>, Stop>
        ensures { Gives (λ ds. ds.items) result self.new (maybe_controls_read self.old) }
    {
        if !self.is_keyword(Keyword::With) {
            return Ok(Vec::new(self.alloc));
        }
        self.controls()
    }

    /// At least one of `assume`, `enforce` and `with`, in this order.
    fn clauses(&mut self) -> Result<Clauses, Stop>
        ensures { Gives clauses_seen result self.new (clauses_read self.old) }
    {
        if self.is_keyword(Keyword::Assume) {
            let assume = Some(self.clause(Keyword::Assume)?);
            let enforce = self.maybe_clause(Keyword::Enforce)?;
            let controls = self.maybe_controls()?;
            return Ok(Clauses {
                assume,
                enforce,
                controls,
            });
        }
        if self.is_keyword(Keyword::Enforce) {
            let enforce = Some(self.clause(Keyword::Enforce)?);
            let controls = self.maybe_controls()?;
            return Ok(Clauses {
                assume: None,
                enforce,
                controls,
            });
        }
        let controls = self.controls()?;
        Ok(Clauses {
            assume: None,
            enforce: None,
            controls,
        })
    }

    fn maybe_block(&mut self) -> Result<Option<Block>, Stop>
        ensures { Gives (λ block. block) result self.new (maybe_block_read self.old) }
    {
        if self.is_keyword(Keyword::Var) || self.is_keyword(Keyword::Let) {
            return Ok(Some(self.whole_block()?));
        }
        Ok(None)
    }

    /// `contract ..`
    fn contract(&mut self) -> Result<Contract, Stop>
        ensures { Gives (λ contract. contract) result self.new (contract_read self.old) }
    {
        let span = self.keyword(Keyword::Contract)?.span;
        let block = self.maybe_block()?;
        let body = block_or_empty(self.alloc, block);
        let Clauses {
            assume,
            enforce,
            controls,
        } = self.clauses()?;
        Ok(Contract {
            body,
            assume,
            enforce,
            controls,
            span,
        })
    }

    fn maybe_contract(&mut self) -> Result<Option<Contract>, Stop>
        ensures { Gives (λ contract. contract) result self.new (optional reading (keyword Keyword.Contract) contract_read self.old) }
    {
        if !self.is_keyword(Keyword::Contract) {
            return Ok(None);
        }
        Ok(Some(self.contract()?))
    }

    /// `node f (..) returns (..) ..`
    fn node(&mut self) -> Result<Item, Stop>
        ensures { Gives (λ item. item) result self.new (node_read self.old) }
    {
        self.keyword(Keyword::Node)?;
        let word = self.small()?;
        let inputs = self.parameters(What::Inputs, false)?;
        self.keyword(Keyword::Returns)?;
        let outputs = self.parameters(What::Outputs, true)?;
        let contract = self.maybe_contract()?;
        let body = self.whole_block()?;
        Ok(Item::NodeItem(Node {
            name: Name::new(self.alloc, word.text)?,
            span: word.span,
            inputs,
            outputs,
            contract,
            body,
        }))
    }

    fn item(&mut self) -> Result<Item, Stop>
        ensures { Gives (λ item. item) result self.new (item_read self.old) }
    {
        if self.is_keyword(Keyword::Type) {
            self.type_declaration()
        } else {
            self.node()
        }
    }

    /// Whether a type or a node is ahead.
    fn is_item(&self) -> bool
        ensures { result ≡ is_ahead begins_item self.now }
    {
        self.is_keyword(Keyword::Type) || self.is_keyword(Keyword::Node)
    }

    /// A type or a node, where so many types may be left.
    #[tactic(auto, using(crate::proofs::ItemRounds::item_strict))]
    fn next_item(&mut self, left: usize) -> Result<Item, Stop>
        ensures read { Gives (λ item. item) result self.new (item_left left self.old) }
        ensures shorter { IfOk result (λ item. length self.new < length self.old) }
    {
        if left == 0 && self.is_keyword(Keyword::Type) {
            return Err(Stop::Fault(Fault::Limit(What::Types)));
        }
        self.item()
    }

    /// Types and nodes.
    #[tactic(auto, using(crate::proofs::ItemRounds::items_begin, crate::proofs::ItemRounds::items_end, crate::proofs::ItemRounds::items_pushed, crate::proofs::ItemRounds::items_stopped))]
    pub fn program(&mut self) -> Result<Program, Stop>
        ensures { Gives (λ p. p) result self.new (read_program self.old) }
    {
        let mut items = Vec::new(self.alloc);
        let mut left = TYPES;
        while self.is_item() {
            let item = self.next_item(left)?;
            left = left.saturating_sub(types_of(&item));
            items.push(item)?;
        }
        Ok(Program { items })
    }
}
