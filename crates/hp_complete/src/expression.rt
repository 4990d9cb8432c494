//! The equations of expressions.
ghost use Rattle.std.specs.Prelude.{◌≡◌, ◌∷◌, [], None, Some, IfOk, OnOk};
ghost use Rattle.hp_tree.specs.Expressions.{exprs_of, parts_of};
ghost use Rattle.hp_flat.specs.Equations.{called};
ghost use Rattle.law_equations.specs.Flattened.Flatten.{constant_in, obc_one, obc_two};
ghost use Rattle.law_equations.specs.Made.Making.{merged_variable, next, numbers_from, outputs_of, type_at, type_one, type_two, with_eqn, with_outputs};
ghost use Rattle.hp_complete.specs.Drafting.{call_made, called_made, const_seen, expr_made, exprs_made, fby_made, first_of, merge_made, part_made, parts_made, when_made};
ghost use Rattle.hp_complete.specs.Drafts.{place_of, sketch_of};

use crate::draft::{Draft, first_value};
use hp_base::{Const, Name};
use hp_flat::{Atom, FlatRight, FlatTy};
use hp_obc::ObcOp;
use hp_tree::{Cons, Decl, Expr, ExprKind, Op1, Op2};
use std::alloc::AllocError;

/// The operator, and the type of what it gives.
fn one_operand(op: Op1) -> (ObcOp, FlatTy)
    ensures op { result.0 ≡ obc_one op }
    ensures ty { result.1 ≡ type_one op }
{
    match op {
        Op1::Not => (ObcOp::Not, FlatTy::Bool),
        Op1::Neg => (ObcOp::Neg, FlatTy::Int),
    }
}

fn two_operands(op: Op2) -> (ObcOp, FlatTy)
    ensures op { result.0 ≡ obc_two op }
    ensures ty { result.1 ≡ type_two op }
{
    match op {
        Op2::And => (ObcOp::And, FlatTy::Bool),
        Op2::Or => (ObcOp::Or, FlatTy::Bool),
        Op2::Xor => (ObcOp::Xor, FlatTy::Bool),
        Op2::Imp => (ObcOp::Imp, FlatTy::Bool),
        Op2::Eq => (ObcOp::Eq, FlatTy::Bool),
        Op2::Ne => (ObcOp::Ne, FlatTy::Bool),
        Op2::Lt => (ObcOp::Lt, FlatTy::Bool),
        Op2::Le => (ObcOp::Le, FlatTy::Bool),
        Op2::Gt => (ObcOp::Gt, FlatTy::Bool),
        Op2::Ge => (ObcOp::Ge, FlatTy::Bool),
        Op2::Add => (ObcOp::Add, FlatTy::Int),
        Op2::Sub => (ObcOp::Sub, FlatTy::Int),
        Op2::Mul => (ObcOp::Mul, FlatTy::Int),
        Op2::Div => (ObcOp::Div, FlatTy::Int),
        Op2::Rem => (ObcOp::Rem, FlatTy::Int),
    }
}

/// The constant that an expression is, if it is one.
pub fn constant_in(expr: &Expr) -> Option<&Const>
    ensures { const_seen result ≡ constant_in expr.now }
{
    match &*expr.kind {
        ExprKind::Const(constant) => Some(constant),
        _ => None,
    }
}

impl<'d, 'a> Draft<'d, 'a> {
    /// The variable of an expression's value.
    #[cycle(expr)]
    #[tactic(auto, using(crate::proofs::Rules::parts))]
    pub fn expr(&mut self, expr: &Expr) -> Result<usize, AllocError>
        ensures sketch { OnOk result (sketch_of self.new ≡ (expr_made (place_of self.old) expr.now (sketch_of self.old)).0) }
        ensures number { IfOk result (λ x. x ≡ (expr_made (place_of self.old) expr.now (sketch_of self.old)).1) }
        ensures place { OnOk result (place_of self.new ≡ place_of self.old) }
    {
        match &*expr.kind {
            ExprKind::Const(constant) => {
                let value = self.value_of(constant);
                let variable = self.constant(value)?;
                Ok(variable)
            }
            ExprKind::Name(name) => {
                let entry = self.sight(name.bytes());
                let variable = self.read(entry.value, entry.ty)?;
                Ok(variable)
            }
            ExprKind::Last(name) => {
                let entry = self.sight(name.bytes());
                let variable = self.read(entry.last, entry.ty)?;
                Ok(variable)
            }
            ExprKind::One(op, a) => {
                let (op, ty) = one_operand(*op);
                let a = self.expr(a)?;
                let variable = self.one(op, ty, a)?;
                Ok(variable)
            }
            ExprKind::Two(op, a, b) => {
                let (op, ty) = two_operands(*op);
                let a = self.expr(a)?;
                let b = self.expr(b)?;
                let variable = self.two(op, ty, a, b)?;
                Ok(variable)
            }
            ExprKind::If(condition, a, b) => {
                let condition = self.expr(condition)?;
                let a = self.expr(a)?;
                let b = self.expr(b)?;
                let variable = self.mux(condition, a, b)?;
                Ok(variable)
            }
            ExprKind::Pre(a) => {
                let a = self.expr(a)?;
                let first = first_value(self.ty(a));
                let variable = self.register(first, a)?;
                Ok(variable)
            }
            ExprKind::Fby(a, b) => {
                let variable = self.fby(a, b)?;
                Ok(variable)
            }
            ExprKind::Arrow(a, b) => {
                let a = self.expr(a)?;
                let b = self.expr(b)?;
                let flag = self.first_time()?;
                let variable = self.mux(flag, a, b)?;
                Ok(variable)
            }
            ExprKind::When(a, _, _) => {
                let variable = self.when(a)?;
                Ok(variable)
            }
            ExprKind::Merge(name, parts) => {
                let variable = self.merge(name, parts)?;
                Ok(variable)
            }
            ExprKind::Call {
                node,
                inlined: _,
                args,
            } => {
                let variable = self.called(node, args)?;
                Ok(variable)
            }
        }
    }

    /// `a fby b`
    #[cycle(expr)]
    #[tactic(auto, using(crate::proofs::Rules::parts))]
    fn fby(&mut self, a: &Expr, b: &Expr) -> Result<usize, AllocError>
        ensures sketch { OnOk result (sketch_of self.new ≡ (fby_made (place_of self.old) a.now b.now (sketch_of self.old)).0) }
        ensures number { IfOk result (λ x. x ≡ (fby_made (place_of self.old) a.now b.now (sketch_of self.old)).1) }
        ensures place { OnOk result (place_of self.new ≡ place_of self.old) }
    {
        match constant_in(a) {
            Some(constant) => {
                let first = self.value_of(constant);
                let b = self.expr(b)?;
                let variable = self.register(first, b)?;
                Ok(variable)
            }
            None => {
                let a = self.expr(a)?;
                let b = self.expr(b)?;
                let first = first_value(self.ty(b));
                let held = self.register(first, b)?;
                let flag = self.first_time()?;
                let variable = self.mux(flag, a, held)?;
                Ok(variable)
            }
        }
    }

    /// The value of an expression on a clock with one step more than its own.
    #[cycle(expr)]
    #[tactic(auto, using(crate::proofs::Rules::parts))]
    fn when(&mut self, a: &Expr) -> Result<usize, AllocError>
        ensures sketch { OnOk result (sketch_of self.new ≡ (when_made (place_of self.old) a.now (sketch_of self.old)).0) }
        ensures number { IfOk result (λ x. x ≡ (when_made (place_of self.old) a.now (sketch_of self.old)).1) }
        ensures place { OnOk result (place_of self.new ≡ place_of self.old) }
    {
        let step = self.pop_own_step();
        let a = self.expr(a)?;
        self.push_back(step)?;
        let ty = self.ty(a);
        let variable = self.read(Some(a), ty)?;
        Ok(variable)
    }

    /// `merge x (c -> e) ..`
    #[cycle(expr)]
    #[tactic(auto, using(crate::proofs::Rules::parts))]
    fn merge(&mut self, name: &Name, parts: &[(Cons, Expr)]) -> Result<usize, AllocError>
        ensures sketch { OnOk result (sketch_of self.new ≡ (merge_made (place_of self.old) name.now (parts_of parts.now) (sketch_of self.old)).0) }
        ensures number { IfOk result (λ x. x ≡ (merge_made (place_of self.old) name.now (parts_of parts.now) (sketch_of self.old)).1) }
        ensures place { OnOk result (place_of self.new ≡ place_of self.old) }
    {
        let test = self.tested(name)?;
        let merged = self.parts(test, parts)?;
        let variable = self.merge_variable(merged, FlatTy::Bool)?;
        Ok(variable)
    }

    /// The parts of a merge, and its variable, if it has a part.
    #[cycle(expr)]
    #[tactic(auto, using(crate::proofs::Rules::parts))]
    fn parts(&mut self, test: usize, parts: &[(Cons, Expr)]) -> Result<Option<usize>, AllocError>
        ensures sketch { OnOk result (sketch_of self.new ≡ (parts_made (place_of self.old) test None (parts_of parts.now) (sketch_of self.old)).0) }
        ensures merged { IfOk result (λ x. x ≡ (parts_made (place_of self.old) test None (parts_of parts.now) (sketch_of self.old)).1) }
        ensures place { OnOk result (place_of self.new ≡ place_of self.old) }
    {
        let mut merged = None;
        for (cons, part) in parts {
            let variable = self.part(test, cons, part, merged)?;
            merged = Some(variable);
        }
        Ok(merged)
    }

    /// One part of a merge. The first one gives it its variable.
    #[cycle(expr)]
    #[tactic(auto, using(crate::proofs::Rules::parts))]
    fn part(
        &mut self,
        test: usize,
        cons: &Cons,
        part: &Expr,
        merged: Option<usize>,
    ) -> Result<usize, AllocError>
        ensures sketch { OnOk result (sketch_of self.new ≡ (part_made (place_of self.old) test merged cons.now part.now (sketch_of self.old)).0) }
        ensures number { IfOk result (λ x. x ≡ (part_made (place_of self.old) test merged cons.now part.now (sketch_of self.old)).1) }
        ensures place { OnOk result (place_of self.new ≡ place_of self.old) }
    {
        let depth = self.depth();
        let number = self.number(cons);
        self.push_step(test, number)?;
        let value = self.expr(part)?;
        let ty = self.ty(value);
        let variable = self.merge_variable(merged, ty)?;
        self.copy_to(variable, value)?;
        self.leave_clock(depth);
        Ok(variable)
    }

    /// The variable of a merge, which has one, or gets one of this type.
    fn merge_variable(&mut self, merged: Option<usize>, ty: FlatTy) -> Result<usize, AllocError>
        ensures sketch { OnOk result (sketch_of self.new ≡ (merged_variable merged ty (sketch_of self.old)).0) }
        ensures number { IfOk result (λ x. x ≡ (merged_variable merged ty (sketch_of self.old)).1) }
        ensures place { OnOk result (place_of self.new ≡ place_of self.old) }
    {
        match merged {
            None => {
                let variable = self.add_new(b"e", ty)?;
                Ok(variable)
            }
            Some(variable) => Ok(variable),
        }
    }

    #[cycle(expr)]
    #[tactic(auto, using(crate::proofs::Rules::parts))]
    fn args(&mut self, exprs: &[Expr]) -> Result<Vec<Atom>, AllocError>
        ensures sketch { OnOk result (sketch_of self.new ≡ (exprs_made (place_of self.old) (exprs_of exprs.now) (sketch_of self.old)).0) }
        ensures args { IfOk result (λ args. args.items ≡ (exprs_made (place_of self.old) (exprs_of exprs.now) (sketch_of self.old)).1) }
        ensures place { OnOk result (place_of self.new ≡ place_of self.old) }
    {
        let mut args = Vec::new(self.alloc);
        for expr in exprs {
            let arg = self.expr(expr)?;
            args.push(Atom::Variable(arg))?;
        }
        Ok(args)
    }

    /// A call, with a new variable for each output of the node.
    #[cycle(expr)]
    #[tactic(auto, using(crate::proofs::Rules::parts))]
    pub fn call(&mut self, name: &Name, exprs: &[Expr]) -> Result<Vec<usize>, AllocError>
        ensures sketch { OnOk result (sketch_of self.new ≡ (call_made (place_of self.old) name.now (exprs_of exprs.now) (sketch_of self.old)).0) }
        ensures outputs { IfOk result (λ xs. xs.items ≡ numbers_from (call_made (place_of self.old) name.now (exprs_of exprs.now) (sketch_of self.old)).1 (outputs_of ((place_of self.old).known.nodes name.now))) }
        ensures place { OnOk result (place_of self.new ≡ place_of self.old) }
    {
        let args = self.args(exprs)?;
        let outputs = self.outputs(name)?;
        self.call_eqn(name, &outputs, args)?;
        Ok(outputs)
    }

    /// The equation of a call.
    fn call_eqn(
        &mut self,
        name: &Name,
        outputs: &[usize],
        args: Vec<Atom>,
    ) -> Result<(), AllocError>
        ensures sketch { OnOk result (sketch_of self.new ≡ with_eqn (place_of self.old).site outputs.now (called name.now args.items) (sketch_of self.old)) }
        ensures place { OnOk result (place_of self.new ≡ place_of self.old) }
    {
        let targets = Vec::from_slice(self.alloc, outputs)?;
        let node = name.copy(self.alloc)?;
        self.add_eqn(targets, FlatRight::Call { node, args })?;
        Ok(())
    }

    /// New variables for the outputs of a node.
    fn outputs(&mut self, name: &Name) -> Result<Vec<usize>, AllocError>
        ensures sketch { OnOk result (sketch_of self.new ≡ with_outputs (place_of self.old).known (outputs_of ((place_of self.old).known.nodes name.now)) (sketch_of self.old)) }
        ensures outputs { IfOk result (λ xs. xs.items ≡ numbers_from (next (sketch_of self.old)) (outputs_of ((place_of self.old).known.nodes name.now))) }
        ensures place { OnOk result (place_of self.new ≡ place_of self.old) }
    {
        match self.node(name) {
            None => Ok(Vec::new(self.alloc)),
            Some(node) => {
                let outputs = self.add_outputs(&node.outputs)?;
                Ok(outputs)
            }
        }
    }

    fn add_output(&mut self, decl: &Decl) -> Result<usize, AllocError>
        ensures sketch { OnOk result (sketch_of self.new ≡ with_outputs (place_of self.old).known (decl.now ∷ []) (sketch_of self.old)) }
        ensures number { IfOk result (λ x. x ≡ next (sketch_of self.old)) }
        ensures place { OnOk result (place_of self.new ≡ place_of self.old) }
    {
        let ty = self.flat_ty(&decl.ty);
        let variable = self.add_new(decl.name.bytes(), ty)?;
        Ok(variable)
    }

    #[tactic(auto, using(crate::proofs::Rules::grown))]
    fn add_outputs(&mut self, decls: &[Decl]) -> Result<Vec<usize>, AllocError>
        ensures sketch { OnOk result (sketch_of self.new ≡ with_outputs (place_of self.old).known decls.now (sketch_of self.old)) }
        ensures outputs { IfOk result (λ xs. xs.items ≡ numbers_from (next (sketch_of self.old)) decls.now) }
        ensures place { OnOk result (place_of self.new ≡ place_of self.old) }
    {
        let mut outputs = Vec::new(self.alloc);
        for decl in decls {
            let output = self.add_output(decl)?;
            outputs.push(output)?;
        }
        Ok(outputs)
    }

    /// The value of a call.
    #[cycle(expr)]
    #[tactic(auto, using(crate::proofs::Rules::calls))]
    fn called(&mut self, name: &Name, exprs: &[Expr]) -> Result<usize, AllocError>
        ensures sketch { OnOk result (sketch_of self.new ≡ (called_made (place_of self.old) name.now (exprs_of exprs.now) (sketch_of self.old)).0) }
        ensures number { IfOk result (λ x. x ≡ (called_made (place_of self.old) name.now (exprs_of exprs.now) (sketch_of self.old)).1) }
        ensures place { OnOk result (place_of self.new ≡ place_of self.old) }
    {
        let outputs = self.call(name, exprs)?;
        let variable = self.first_output(&outputs)?;
        Ok(variable)
    }

    /// The value of a call, of which these are the outputs.
    fn first_output(&mut self, outputs: &[usize]) -> Result<usize, AllocError>
        ensures sketch { OnOk result (sketch_of self.new ≡ (first_of (place_of self.old).site outputs.now (sketch_of self.old)).0) }
        ensures number { IfOk result (λ x. x ≡ (first_of (place_of self.old).site outputs.now (sketch_of self.old)).1) }
        ensures place { OnOk result (place_of self.new ≡ place_of self.old) }
    {
        match outputs {
            [] => {
                let variable = self.add_new(b"e", FlatTy::Bool)?;
                Ok(variable)
            }
            [first, ..] => {
                let ty = self.ty(*first);
                let variable = self.read(Some(*first), ty)?;
                Ok(variable)
            }
        }
    }
}
