//! The equations of blocks.
ghost use Rattle.std.specs.Prelude.{◌≡◌, ◌∷◌, [], Some, map, if◌then◌else◌, IfOk, OnOk};
ghost use Rattle.hp_tree.specs.Blocks.{arms_of, eqns_of};
ghost use Rattle.hp_tree.specs.BlockView.{arm_seen, eqn_seen};
ghost use Rattle.law_equations.specs.Flattened.Flatten.{is_false, is_false_constant};
ghost use Rattle.law_equations.specs.Made.Making.{hidden, is_plain, next, own_variable, remember, with_new, with_variable};
ghost use Rattle.hp_complete.specs.Drafting.{arm_made, arms_made, block_made, declared_at, eqn_made, eqns_made, layer_made, own_made, owned_at, remembered_at, reset_block, reset_made, restarted_made, standing_of, switch_made};
ghost use Rattle.hp_complete.specs.Drafts.{place_of, sketch_of};
ghost use Rattle.hp_complete.specs.Names.{names_seen};
ghost use Rattle.hp_complete.specs.Places.{left, saying, sees, sees_around, within};

use crate::draft::Draft;
use crate::expression::constant_in;
use crate::layer::Entry;
use crate::names::{Locals, is_plain, names_in, names_of};
use hp_base::Const;
use hp_flat::FlatTy;
use hp_tree::{Arm, Block, Decl, Eqn, Expr};
use std::alloc::AllocError;

fn is_false_constant(constant: &Const) -> bool
    ensures { result ≡ is_false_constant (Some constant.now) }
{
    match constant {
        Const::B(b) => { if *b { false } else { true } }
        _ => false,
    }
}

/// Whether an expression is the constant `false`.
fn is_false(expr: &Expr) -> bool
    ensures { result ≡ is_false expr.now }
{
    match constant_in(expr) {
        None => false,
        Some(constant) => is_false_constant(constant),
    }
}

/// Whether a block is the body of its node, which defines outputs, or a block of a control equation.
#[derive(Clone, Copy)]
pub enum Standing {
    Body,
    Inner,
}

impl<'d, 'a> Draft<'d, 'a> {
    /// What a block declares stands, as far as nothing defines it, for what stood there.
    fn declare(&mut self, decl: &'a Decl) -> Result<(), AllocError>
        ensures sketch { OnOk result (sketch_of self.new ≡ sketch_of self.old) }
        ensures place { OnOk result (place_of self.new ≡ declared_at (decl.now ∷ []) (place_of self.old)) }
    {
        let name = decl.name.bytes();
        let outside = self.around(name);
        let ty = self.flat_ty(&decl.ty);
        self.put(
            name,
            Entry {
                ty,
                value: outside.value,
                last: outside.last,
                is_local: true,
            },
        )?;
        Ok(())
    }

    fn declare_all(&mut self, decls: &'a [Decl]) -> Result<(), AllocError>
        ensures sketch { OnOk result (sketch_of self.new ≡ sketch_of self.old) }
        ensures place { OnOk result (place_of self.new ≡ declared_at decls.now (place_of self.old)) }
    {
        let mut i = decls.len();
        while i > 0 {
            i -= 1;
            self.declare(&decls[i])?;
        }
        Ok(())
    }

    /// The variable of a name that the body of a node declares. On the base clock it keeps its name.
    fn body_variable(&mut self, decl: &Decl, name: &[u8], ty: FlatTy) -> Result<usize, AllocError>
        ensures sketch { OnOk result (sketch_of self.new ≡ (if is_plain decl.now.clock then with_variable decl.now.name ty (sketch_of self.old) else with_new name.now ty (sketch_of self.old))) }
        ensures number { IfOk result (λ x. x ≡ next (sketch_of self.old)) }
        ensures place { OnOk result (place_of self.new ≡ place_of self.old) }
    {
        if is_plain(decl) {
            let variable = self.add_named(&decl.name, ty)?;
            return Ok(variable);
        }
        let variable = self.add_new(name, ty)?;
        Ok(variable)
    }

    /// The variable of a name that a block defines.
    #[tactic(auto, using(crate::proofs::Rules::owned))]
    fn variable_of(
        &mut self,
        locals: &Locals<'a>,
        standing: Standing,
        name: &[u8],
        ty: FlatTy,
    ) -> Result<usize, AllocError>
        ensures sketch { OnOk result (sketch_of self.new ≡ (own_variable (standing_of standing) locals.now.decls.now name.now ty (sketch_of self.old)).0) }
        ensures number { IfOk result (λ x. x ≡ (own_variable (standing_of standing) locals.now.decls.now name.now ty (sketch_of self.old)).1) }
        ensures place { OnOk result (place_of self.new ≡ place_of self.old) }
    {
        match standing {
            Standing::Inner => {
                let variable = self.add_new(name, ty)?;
                Ok(variable)
            }
            Standing::Body => match locals.find(name) {
                None => {
                    let variable = self.add_new(name, ty)?;
                    Ok(variable)
                }
                Some(decl) => {
                    let variable = self.body_variable(decl, name, ty)?;
                    Ok(variable)
                }
            },
        }
    }

    /// In the block the name stands for a new variable.
    fn own_entry(
        &mut self,
        locals: &Locals<'a>,
        standing: Standing,
        name: &'a [u8],
    ) -> Result<(), AllocError>
        ensures sketch { OnOk result (sketch_of self.new ≡ (own_made (place_of self.old) (standing_of standing) locals.now.decls.now name.now (sketch_of self.old)).1) }
        ensures place { OnOk result (place_of self.new ≡ saying (own_made (place_of self.old) (standing_of standing) locals.now.decls.now name.now (sketch_of self.old)).0 (place_of self.old)) }
    {
        let entry = self.sight(name);
        let variable = self.variable_of(locals, standing, name, entry.ty)?;
        self.put(
            name,
            Entry {
                ty: entry.ty,
                value: Some(variable),
                last: entry.last,
                is_local: locals.declares(name),
            },
        )?;
        Ok(())
    }

    /// A name that a block defines. An output is its own variable in the body.
    fn own_name(
        &mut self,
        locals: &Locals<'a>,
        standing: Standing,
        name: &'a [u8],
    ) -> Result<(), AllocError>
        ensures sketch { OnOk result (sketch_of self.new ≡ (owned_at (standing_of standing) locals.now.decls.now (name.now ∷ []) (place_of self.old) (sketch_of self.old)).1) }
        ensures place { OnOk result (place_of self.new ≡ saying (owned_at (standing_of standing) locals.now.decls.now (name.now ∷ []) (place_of self.old) (sketch_of self.old)).0 (place_of self.old)) }
    {
        match standing {
            Standing::Inner => {
                self.own_entry(locals, standing, name)?;
                Ok(())
            }
            Standing::Body => {
                if locals.declares(name) {
                    self.own_entry(locals, standing, name)?;
                }
                Ok(())
            }
        }
    }

    fn own_names(
        &mut self,
        locals: &Locals<'a>,
        standing: Standing,
        names: &[&'a [u8]],
    ) -> Result<(), AllocError>
        ensures sketch { OnOk result (sketch_of self.new ≡ (owned_at (standing_of standing) locals.now.decls.now (names_seen names.now) (place_of self.old) (sketch_of self.old)).1) }
        ensures place { OnOk result (place_of self.new ≡ saying (owned_at (standing_of standing) locals.now.decls.now (names_seen names.now) (place_of self.old) (sketch_of self.old)).0 (place_of self.old)) }
    {
        for i in 0..names.len() {
            self.own_name(locals, standing, names[i])?;
        }
        Ok(())
    }

    /// The last value of what is declared with one.
    fn remember_constant(&mut self, decl: &'a Decl, constant: &Const) -> Result<(), AllocError>
        ensures sketch { OnOk result (sketch_of self.new ≡ (remember (place_of self.old).known (place_of self.old).site (sees_around (place_of self.old)) decl.now (Some constant.now) ((place_of self.old).own, sketch_of self.old)).1) }
        ensures place { OnOk result (place_of self.new ≡ saying (remember (place_of self.old).known (place_of self.old).site (sees_around (place_of self.old)) decl.now (Some constant.now) ((place_of self.old).own, sketch_of self.old)).0 (place_of self.old)) }
    {
        let name = decl.name.bytes();
        let entry = self.sight(name);
        let first = self.value_of(constant);
        let last = self.last(entry.ty, first, entry.value)?;
        self.put(
            name,
            Entry {
                ty: entry.ty,
                value: entry.value,
                last: Some(last),
                is_local: entry.is_local,
            },
        )?;
        Ok(())
    }

    fn remember(&mut self, decl: &'a Decl) -> Result<(), AllocError>
        ensures sketch { OnOk result (sketch_of self.new ≡ (remembered_at (decl.now ∷ []) (place_of self.old) (sketch_of self.old)).1) }
        ensures place { OnOk result (place_of self.new ≡ saying (remembered_at (decl.now ∷ []) (place_of self.old) (sketch_of self.old)).0 (place_of self.old)) }
    {
        match &decl.last {
            None => Ok(()),
            Some(constant) => {
                self.remember_constant(decl, constant)?;
                Ok(())
            }
        }
    }

    pub fn remember_all(&mut self, decls: &'a [Decl]) -> Result<(), AllocError>
        ensures sketch { OnOk result (sketch_of self.new ≡ (remembered_at decls.now (place_of self.old) (sketch_of self.old)).1) }
        ensures place { OnOk result (place_of self.new ≡ saying (remembered_at decls.now (place_of self.old) (sketch_of self.old)).0 (place_of self.old)) }
    {
        for decl in decls {
            self.remember(decl)?;
        }
        Ok(())
    }

    /// Enters a block: what its names stand for there.
    fn enter(
        &mut self,
        locals: &Locals<'a>,
        standing: Standing,
        names: &[&'a [u8]],
    ) -> Result<(), AllocError>
        ensures sketch { OnOk result (sketch_of self.new ≡ (layer_made (standing_of standing) (place_of self.old) locals.now.decls.now (names_seen names.now) (sketch_of self.old)).1) }
        ensures place { OnOk result (place_of self.new ≡ within (layer_made (standing_of standing) (place_of self.old) locals.now.decls.now (names_seen names.now) (sketch_of self.old)).0 (place_of self.old)) }
    {
        self.open()?;
        self.declare_all(locals.decls)?;
        self.own_names(locals, standing, names)?;
        self.remember_all(locals.decls)?;
        Ok(())
    }

    /// The equations of a block, in a layer of its own, which stays open.
    #[cycle(block)]
    #[tactic(auto, using(crate::proofs::Rules::lines))]
    pub fn block(&mut self, block: &'a Block, standing: Standing) -> Result<(), AllocError>
        ensures sketch { OnOk result (sketch_of self.new ≡ (block_made (standing_of standing) (place_of self.old) block.now (sketch_of self.old)).1) }
        ensures place { OnOk result (place_of self.new ≡ within (block_made (standing_of standing) (place_of self.old) block.now (sketch_of self.old)).0 (place_of self.old)) }
        ensures back { OnOk result (left (place_of self.new) ≡ place_of self.old) }
    {
        let names = names_in(self.alloc, &block.eqns)?;
        let locals = Locals::new(self.alloc, &block.locals)?;
        self.enter(&locals, standing, &names)?;
        self.eqns(&locals, &block.eqns)?;
        Ok(())
    }

    #[cycle(block)]
    #[tactic(auto, using(crate::proofs::Rules::lines))]
    fn eqns(&mut self, locals: &Locals<'a>, eqns: &'a [Eqn]) -> Result<(), AllocError>
        ensures sketch { OnOk result (sketch_of self.new ≡ eqns_made (place_of self.old) locals.now.decls.now (eqns_of (map eqn_seen eqns.now)) (sketch_of self.old)) }
        ensures place { OnOk result (place_of self.new ≡ place_of self.old) }
    {
        for eqn in eqns {
            self.eqn(locals, eqn)?;
        }
        Ok(())
    }

    #[cycle(block)]
    #[tactic(auto, using(crate::proofs::Rules::lines))]
    fn eqn(&mut self, locals: &Locals<'a>, eqn: &'a Eqn) -> Result<(), AllocError>
        ensures sketch { OnOk result (sketch_of self.new ≡ eqn_made (place_of self.old) locals.now.decls.now (eqn_seen eqn.now) (sketch_of self.old)) }
        ensures place { OnOk result (place_of self.new ≡ place_of self.old) }
    {
        match eqn {
            Eqn::Def {
                span: _,
                names,
                right,
            } => {
                self.definition(locals, names, right)?;
                Ok(())
            }
            Eqn::Switch {
                span: _,
                cond,
                arms,
            } => {
                let names = names_of(self.alloc, eqn)?;
                self.switch(&names, cond, arms)?;
                Ok(())
            }
            Eqn::Reset {
                span: _,
                body,
                cond,
            } => {
                let names = names_of(self.alloc, eqn)?;
                self.reset(&names, body, cond)?;
                Ok(())
            }
            Eqn::Automaton { span: _, states: _ } => Ok(()),
        }
    }

    #[cycle(block)]
    #[tactic(auto, using(crate::proofs::Rules::lines))]
    fn switch(&mut self, names: &[&'a [u8]], cond: &Expr, arms: &'a [Arm]) -> Result<(), AllocError>
        ensures sketch { OnOk result (sketch_of self.new ≡ switch_made (place_of self.old) (names_seen names.now) cond.now (arms_of (map arm_seen arms.now)) (sketch_of self.old)) }
        ensures place { OnOk result (place_of self.new ≡ place_of self.old) }
    {
        let test = self.expr(cond)?;
        self.hide(names)?;
        self.arms(names, test, arms)?;
        self.close();
        Ok(())
    }

    #[cycle(block)]
    #[tactic(auto, using(crate::proofs::Rules::lines))]
    fn arms(&mut self, names: &[&'a [u8]], test: usize, arms: &'a [Arm]) -> Result<(), AllocError>
        ensures sketch { OnOk result (sketch_of self.new ≡ arms_made (place_of self.old) (names_seen names.now) test (arms_of (map arm_seen arms.now)) (sketch_of self.old)) }
        ensures place { OnOk result (place_of self.new ≡ place_of self.old) }
    {
        for arm in arms {
            self.arm(names, test, arm)?;
        }
        Ok(())
    }

    #[cycle(block)]
    #[tactic(auto, using(crate::proofs::Rules::lines))]
    fn arm(&mut self, names: &[&'a [u8]], test: usize, arm: &'a Arm) -> Result<(), AllocError>
        ensures sketch { OnOk result (sketch_of self.new ≡ arm_made (place_of self.old) (names_seen names.now) test arm.now.cons arm.now.body (sketch_of self.old)) }
        ensures place { OnOk result (place_of self.new ≡ place_of self.old) }
    {
        let depth = self.depth();
        let number = self.number(&arm.cons);
        self.push_step(test, number)?;
        let around = self.enter_block();
        self.block(&arm.body, Standing::Inner)?;
        self.link_all(names)?;
        self.close();
        self.leave_block(around);
        self.leave_clock(depth);
        Ok(())
    }

    #[cycle(block)]
    #[tactic(auto, using(crate::proofs::Rules::lines))]
    fn reset(&mut self, names: &[&'a [u8]], body: &'a Block, cond: &Expr) -> Result<(), AllocError>
        ensures sketch { OnOk result (sketch_of self.new ≡ reset_made (place_of self.old) (names_seen names.now) cond.now body.now (sketch_of self.old)) }
        ensures place { OnOk result (place_of self.new ≡ place_of self.old) }
    {
        self.reset_block(names, body, cond)?;
        self.link_all(names)?;
        self.close();
        self.close();
        Ok(())
    }

    /// The block of a `reset`, which stays open.
    #[cycle(block)]
    #[tactic(auto, using(crate::proofs::Rules::lines))]
    fn reset_block(
        &mut self,
        names: &[&'a [u8]],
        body: &'a Block,
        cond: &Expr,
    ) -> Result<(), AllocError>
        ensures sketch { OnOk result (sketch_of self.new ≡ (reset_block (place_of self.old) (names_seen names.now) cond.now body.now (sketch_of self.old)).1) }
        ensures place { OnOk result (place_of self.new ≡ within (reset_block (place_of self.old) (names_seen names.now) cond.now body.now (sketch_of self.old)).0 (within (hidden (names_seen names.now) (sees (place_of self.old))) (place_of self.old))) }
        ensures back { OnOk result (left (left (place_of self.new)) ≡ place_of self.old) }
    {
        if is_false(cond) {
            self.hide(names)?;
            self.block(body, Standing::Inner)?;
            return Ok(());
        }
        let test = self.expr(cond)?;
        self.hide(names)?;
        self.reset_body(test, body)?;
        Ok(())
    }

    /// A block that begins anew where the variable is true.
    #[cycle(block)]
    #[tactic(auto, using(crate::proofs::Rules::lines))]
    fn reset_body(&mut self, test: usize, body: &'a Block) -> Result<(), AllocError>
        ensures sketch { OnOk result (sketch_of self.new ≡ (restarted_made (place_of self.old) test body.now (sketch_of self.old)).1) }
        ensures place { OnOk result (place_of self.new ≡ within (restarted_made (place_of self.old) test body.now (sketch_of self.old)).0 (place_of self.old)) }
        ensures back { OnOk result (left (place_of self.new) ≡ place_of self.old) }
    {
        self.push_restart(test)?;
        let around = self.enter_block();
        self.block(body, Standing::Inner)?;
        self.leave_block(around);
        self.pop_restart();
        Ok(())
    }
}
