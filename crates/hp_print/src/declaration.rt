//! The text of declarations.
ghost use Rattle.std.specs.Prelude.{◌≡◌, ◌∷◌, [], map, OnOk};
ghost use Rattle.hp_tree.specs.DeclView.{clock_seen};
ghost use Rattle.hp_print.specs.Tokens;
ghost use Rattle.hp_print.specs.Tokens.{type_token, led_by, joined_by, ended_by, written_after};
ghost use Rattle.hp_print.specs.BlockTokens.{path_tokens, clock_tokens, typed_tokens, declaration_tokens, parameters_tokens, variables_tokens, inner_variables_tokens};

use crate::printer::Printer;
use hp_base::{Name, Ty};
use hp_lexer::{Keyword, Sign};
use hp_tree::{Cons, Decl};
use std::alloc::AllocError;

#[tactic(auto, using(crate::proofs::Rules::written))]
impl Printer {
    fn ty(&mut self, ty: &Ty) -> Result<(), AllocError>
        ensures { OnOk result (self.new ≡ written_after self.old (type_token ty.now ∷ [])) }
    {
        match ty {
            Ty::Bool => self.word(Keyword::Bool),
            Ty::Int => self.word(Keyword::Int),
            Ty::Enum(name) => self.small(name),
        }
    }

    /// `x : ty`
    fn typed(&mut self, name: &Name, ty: &Ty) -> Result<(), AllocError>
        ensures { OnOk result (self.new ≡ written_after self.old (typed_tokens name.now ty.now)) }
    {
        self.small(name)?;
        self.sign(Sign::Colon)?;
        self.ty(ty)
    }

    fn clock(&mut self, clock: &Option<Vec<(Cons, Name)>>) -> Result<(), AllocError>
        ensures { OnOk result (self.new ≡ written_after self.old (clock_tokens (clock_seen clock.now))) }
    {
        match clock {
            None => Ok(()),
            Some(path) => self.path(path),
        }
    }

    #[tactic(auto, using(crate::proofs::Rules::written_in_declarations))]
    fn path(&mut self, path: &[(Cons, Name)]) -> Result<(), AllocError>
        ensures { OnOk result (self.new ≡ written_after self.old (path_tokens path.now)) }
    {
        for (cons, name) in path {
            self.word(Keyword::On)?;
            self.of_constructor(cons, name)?;
        }
        Ok(())
    }

    fn declaration(&mut self, decl: &Decl) -> Result<(), AllocError>
        ensures { OnOk result (self.new ≡ written_after self.old (declaration_tokens decl.now)) }
    {
        match &decl.last {
            None => {
                self.typed(&decl.name, &decl.ty)?;
                self.clock(&decl.clock)
            }
            Some(first) => {
                self.word(Keyword::Last)?;
                self.typed(&decl.name, &decl.ty)?;
                self.sign(Sign::Equal)?;
                self.constant(first)
            }
        }
    }

    /// Declarations with semicolons between them, in parentheses.
    pub fn parameters(&mut self, decls: &[Decl]) -> Result<(), AllocError>
        ensures { OnOk result (self.new ≡ written_after self.old (parameters_tokens decls.now)) }
    {
        self.sign(Sign::Open)?;
        self.joined_declarations(decls)?;
        self.sign(Sign::Close)
    }

    fn joined_declarations(&mut self, decls: &[Decl]) -> Result<(), AllocError>
        ensures { OnOk result (self.new ≡ written_after self.old (joined_by (Tokens.sign Sign.Semicolon) (map declaration_tokens decls.now))) }
    {
        match decls {
            [] => Ok(()),
            [first, others @ ..] => {
                self.declaration(first)?;
                self.more_parameters(others)
            }
        }
    }

    #[tactic(auto, using(crate::proofs::Rules::written_in_declarations))]
    fn more_parameters(&mut self, decls: &[Decl]) -> Result<(), AllocError>
        ensures { OnOk result (self.new ≡ written_after self.old (led_by (Tokens.sign Sign.Semicolon) (map declaration_tokens decls.now))) }
    {
        for decl in decls {
            self.sign(Sign::Semicolon)?;
            self.declaration(decl)?;
        }
        Ok(())
    }

    /// `var` and the declarations, or nothing.
    pub fn variables(&mut self, decls: &[Decl]) -> Result<(), AllocError>
        ensures { OnOk result (self.new ≡ written_after self.old (variables_tokens decls.now)) }
    {
        if decls.is_empty() {
            return Ok(());
        }
        self.word(Keyword::Var)?;
        self.declarations(decls)
    }

    #[tactic(auto, using(crate::proofs::Rules::written_in_declarations))]
    fn declarations(&mut self, decls: &[Decl]) -> Result<(), AllocError>
        ensures { OnOk result (self.new ≡ written_after self.old (ended_by (Tokens.sign Sign.Semicolon) (map declaration_tokens decls.now))) }
    {
        for decl in decls {
            self.declaration(decl)?;
            self.sign(Sign::Semicolon)?;
        }
        Ok(())
    }

    /// The same as `variables`, and `in` behind them.
    pub fn inner_variables(&mut self, decls: &[Decl]) -> Result<(), AllocError>
        ensures { OnOk result (self.new ≡ written_after self.old (inner_variables_tokens decls.now)) }
    {
        if decls.is_empty() {
            return Ok(());
        }
        self.variables(decls)?;
        self.word(Keyword::In)
    }
}
