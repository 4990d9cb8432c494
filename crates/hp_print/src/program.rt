//! The text of types, contracts, nodes and programs.
ghost use Rattle.std.specs.Prelude.{◌≡◌, ◌∷◌, [], map, OnOk};
ghost use Rattle.hp_print.specs.Tokens;
ghost use Rattle.hp_print.specs.Tokens.{led_by, joined_by, written_after};
ghost use Rattle.hp_print.specs.ProgramTokens.{constructor_tokens, type_tokens, whole_block_tokens, is_empty_block, contract_block_tokens, clause_tokens, controls_tokens, contract_tokens, node_contract_tokens, node_tokens, item_tokens, program_tokens};

use crate::printer::Printer;
use hp_base::Name;
use hp_lexer::{Keyword, Sign};
use hp_tree::{Block, Contract, Decl, Expr, Item, Node, TypeDecl};
use std::alloc::AllocError;

fn is_empty_block(block: &Block) -> bool
    ensures { result ≡ is_empty_block block.now }
{
    block.locals.is_empty() && block.eqns.is_empty()
}

#[tactic(auto, using(crate::proofs::Rules::written))]
impl Printer {
    fn type_declaration(&mut self, decl: &TypeDecl) -> Result<(), AllocError>
        ensures { OnOk result (self.new ≡ written_after self.old (type_tokens decl.now)) }
    {
        self.word(Keyword::Type)?;
        self.small(&decl.name)?;
        self.sign(Sign::Equal)?;
        self.constructors(&decl.cons)
    }

    fn constructors(&mut self, names: &[Name]) -> Result<(), AllocError>
        ensures { OnOk result (self.new ≡ written_after self.old (joined_by (Tokens.sign Sign.Bar) (map constructor_tokens names.now))) }
    {
        match names {
            [] => Ok(()),
            [first, others @ ..] => {
                self.capital(first)?;
                self.more_constructors(others)
            }
        }
    }

    #[tactic(auto, using(crate::proofs::Rules::written_in_programs))]
    fn more_constructors(&mut self, names: &[Name]) -> Result<(), AllocError>
        ensures { OnOk result (self.new ≡ written_after self.old (led_by (Tokens.sign Sign.Bar) (map constructor_tokens names.now))) }
    {
        for name in names {
            self.sign(Sign::Bar)?;
            self.capital(name)?;
        }
        Ok(())
    }

    /// Declarations, and equations from `let` to `tel`.
    fn whole_block(&mut self, block: &Block) -> Result<(), AllocError>
        ensures { OnOk result (self.new ≡ written_after self.old (whole_block_tokens block.now)) }
    {
        self.variables(&block.locals)?;
        self.word(Keyword::Let)?;
        self.equations(&block.eqns)?;
        self.word(Keyword::Tel)
    }

    /// The block of a contract, or nothing where it has no declarations and no equations.
    fn contract_block(&mut self, block: &Block) -> Result<(), AllocError>
        ensures { OnOk result (self.new ≡ written_after self.old (contract_block_tokens block.now)) }
    {
        if is_empty_block(block) {
            Ok(())
        } else {
            self.whole_block(block)
        }
    }

    fn clause(&mut self, word: Keyword, condition: &Option<Expr>) -> Result<(), AllocError>
        ensures { OnOk result (self.new ≡ written_after self.old (clause_tokens word condition.now)) }
    {
        match condition {
            None => Ok(()),
            Some(expr) => {
                self.word(word)?;
                self.expression(expr)
            }
        }
    }

    fn controls(&mut self, decls: &[Decl]) -> Result<(), AllocError>
        ensures { OnOk result (self.new ≡ written_after self.old (controls_tokens decls.now)) }
    {
        if decls.is_empty() {
            return Ok(());
        }
        self.word(Keyword::With)?;
        self.parameters(decls)
    }

    fn contract(&mut self, contract: &Contract) -> Result<(), AllocError>
        ensures { OnOk result (self.new ≡ written_after self.old (contract_tokens contract.now)) }
    {
        self.word(Keyword::Contract)?;
        self.contract_block(&contract.body)?;
        self.clause(Keyword::Assume, &contract.assume)?;
        self.clause(Keyword::Enforce, &contract.enforce)?;
        self.controls(&contract.controls)
    }

    fn node_contract(&mut self, contract: &Option<Contract>) -> Result<(), AllocError>
        ensures { OnOk result (self.new ≡ written_after self.old (node_contract_tokens contract.now)) }
    {
        match contract {
            None => Ok(()),
            Some(contract) => self.contract(contract),
        }
    }

    fn node(&mut self, node: &Node) -> Result<(), AllocError>
        ensures { OnOk result (self.new ≡ written_after self.old (node_tokens node.now)) }
    {
        self.word(Keyword::Node)?;
        self.small(&node.name)?;
        self.parameters(&node.inputs)?;
        self.word(Keyword::Returns)?;
        self.parameters(&node.outputs)?;
        self.node_contract(&node.contract)?;
        self.whole_block(&node.body)
    }

    fn item(&mut self, item: &Item) -> Result<(), AllocError>
        ensures { OnOk result (self.new ≡ written_after self.old (item_tokens item.now)) }
    {
        match item {
            Item::TypeItem(decl) => self.type_declaration(decl),
            Item::NodeItem(node) => self.node(node),
        }
    }

    #[tactic(auto, using(crate::proofs::Rules::written_in_programs))]
    pub fn items(&mut self, items: &[Item]) -> Result<(), AllocError>
        ensures { OnOk result (self.new ≡ written_after self.old (program_tokens items.now)) }
    {
        for item in items {
            self.item(item)?;
        }
        Ok(())
    }
}
