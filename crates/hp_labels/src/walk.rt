//! The slots of a node in the order of places: the variables of a block before its equations, each operator before its operands, a call's outputs and contract before its arguments, of a control equation the condition of a `switch` before its arms and the body of a `reset` before its condition.

use crate::declared::{Declared, values_of_type};
use crate::label::{Call, Label, Subject, Values};
use crate::scope::Scope;
use hp_base::{Name, Span};
use hp_tree::{
    Arm, Block, Cons, Contract, Decl, Eqn, Expr, ExprKind, Item, Node, Program, State, Trans,
    controls_of,
};
use std::alloc::{AllocError, Global};

/// The labels of a node so far.
#[derive(Drop)]
struct Walk<'w, 'a> {
    declared: &'w Declared<'a>,
    scope: Scope<'a>,
    /// Whether calls are labelled, as they are but in the contract of a node that is called.
    calls: bool,
    labels: Vec<Label<'a>>,
}

/// The name of an equation that has one.
fn only<'a>(names: &'a [(Name, Span)]) -> Option<&'a Name> {
    match names {
        [(name, _)] => Some(name),
        _ => None,
    }
}

/// The name at a place.
fn name_at<'a>(names: &'a [(Name, Span)], place: usize) -> Option<&'a Name> {
    match names.get(place) {
        None => None,
        Some((name, _)) => Some(name),
    }
}

impl<'w, 'a> Walk<'w, 'a> {
    fn new(alloc: Global, declared: &'w Declared<'a>, calls: bool) -> Walk<'w, 'a> {
        Walk {
            declared,
            scope: Scope::new(alloc),
            calls,
            labels: Vec::new(alloc),
        }
    }

    fn add(
        &mut self,
        subject: Subject<'a>,
        values: Values<'a>,
        span: Span,
    ) -> Result<(), AllocError> {
        self.labels.push(Label::new(subject, values, span))?;
        Ok(())
    }

    /// Labels what is given of a declaration. There is no slot of an integer.
    fn add_declared(&mut self, subject: Subject<'a>, decl: &'a Decl) -> Result<(), AllocError> {
        match values_of_type(self.declared, &decl.ty) {
            None => Ok(()),
            Some(values) => self.add(subject, values, decl.span),
        }
    }

    fn add_last(&mut self, decl: &'a Decl) -> Result<(), AllocError> {
        if decl.last.is_none() {
            return Ok(());
        }
        self.add_declared(Subject::Last(decl), decl)
    }

    /// Labels the last values of declarations.
    fn add_lasts(&mut self, decls: &'a [Decl]) -> Result<(), AllocError> {
        for decl in decls {
            self.add_last(decl)?;
        }
        Ok(())
    }

    /// Labels the register of an operand, unless that is an integer.
    fn add_previous(
        &mut self,
        span: Span,
        operand: &'a Expr,
        name: Option<&'a Name>,
    ) -> Result<(), AllocError> {
        match self.scope.values(self.declared, operand) {
            None => Ok(()),
            Some(values) => self.add(Subject::Previous { operand, name }, values, span),
        }
    }

    fn add_past(&mut self, span: Span) -> Result<(), AllocError> {
        self.add(Subject::Past, Values::Truth, span)
    }

    /// Labels the outputs of a node that is called, where its equation has these names.
    fn add_outputs(
        &mut self,
        span: Span,
        node: &'a Node,
        names: &'a [(Name, Span)],
    ) -> Result<(), AllocError> {
        for i in 0..node.outputs.len() {
            let output = &node.outputs[i];
            if let Some(values) = values_of_type(self.declared, &output.ty) {
                let subject = Subject::Output {
                    node: &node.name,
                    output,
                    name: name_at(names, i),
                };
                self.add(subject, values, span)?;
            }
        }
        Ok(())
    }

    /// Labels a call but for its arguments.
    fn add_call(
        &mut self,
        span: Span,
        node: &'a Name,
        names: &'a [(Name, Span)],
    ) -> Result<(), AllocError> {
        if !self.calls {
            return Ok(());
        }
        let Some(callee) = self.declared.nodes.find(node.bytes()) else {
            return Ok(());
        };
        self.add_outputs(span, callee, names)?;
        self.declared
            .add_contract(Call { node, span }, &mut self.labels)
    }

    /// Labels an expression, the whole right side of an equation that has these names, if there are any.
    #[cycle(expressions)]
    fn expression(&mut self, expr: &'a Expr, names: &'a [(Name, Span)]) -> Result<(), AllocError> {
        match &*expr.kind {
            ExprKind::Const(_) | ExprKind::Name(_) | ExprKind::Last(_) => Ok(()),
            ExprKind::One(_, a) | ExprKind::When(a, _, _) => self.expression(a, &[]),
            ExprKind::Two(op, a, b) => {
                if self.scope.compares_integers(self.declared, *op, a) {
                    self.add(Subject::Comparison(expr), Values::Truth, expr.span)?;
                }
                self.expression(a, &[])?;
                self.expression(b, &[])
            }
            ExprKind::If(a, b, c) => {
                self.expression(a, &[])?;
                self.expression(b, &[])?;
                self.expression(c, &[])
            }
            ExprKind::Pre(a) => {
                self.add_previous(expr.span, a, only(names))?;
                self.expression(a, &[])
            }
            ExprKind::Fby(a, b) => {
                self.add_previous(expr.span, b, only(names))?;
                self.add_past(expr.span)?;
                self.expression(a, &[])?;
                self.expression(b, &[])
            }
            ExprKind::Arrow(a, b) => {
                self.add_past(expr.span)?;
                self.expression(a, &[])?;
                self.expression(b, &[])
            }
            ExprKind::Merge(_, parts) => self.parts(parts),
            ExprKind::Call {
                node,
                inlined: _,
                args,
            } => {
                self.add_call(expr.span, node, names)?;
                self.arguments(args)
            }
        }
    }

    #[cycle(expressions)]
    #[tactic(auto, using(crate::proofs::Rules::nodes))]
    fn parts(&mut self, parts: &'a [(Cons, Expr)]) -> Result<(), AllocError> {
        for (_, part) in parts {
            self.expression(part, &[])?;
        }
        Ok(())
    }

    #[cycle(expressions)]
    #[tactic(auto, using(crate::proofs::Rules::nodes))]
    fn arguments(&mut self, args: &'a [Expr]) -> Result<(), AllocError> {
        for arg in args {
            self.expression(arg, &[])?;
        }
        Ok(())
    }

    /// Labels the conditions of transitions.
    fn conditions(&mut self, transitions: &'a [Trans]) -> Result<(), AllocError> {
        for transition in transitions {
            self.expression(&transition.cond, &[])?;
        }
        Ok(())
    }

    #[cycle(blocks)]
    #[tactic(auto, using(crate::proofs::Rules::lines))]
    fn block(&mut self, block: &'a Block) -> Result<(), AllocError> {
        self.scope.add(&block.locals)?;
        self.add_lasts(&block.locals)?;
        self.equations(&block.eqns)
    }

    #[cycle(blocks)]
    #[tactic(auto, using(crate::proofs::Rules::lines))]
    fn equations(&mut self, eqns: &'a [Eqn]) -> Result<(), AllocError> {
        for eqn in eqns {
            self.equation(eqn)?;
        }
        Ok(())
    }

    #[cycle(blocks)]
    #[tactic(auto, using(crate::proofs::Rules::lines))]
    fn equation(&mut self, eqn: &'a Eqn) -> Result<(), AllocError> {
        match eqn {
            Eqn::Def {
                span: _,
                names,
                right,
            } => self.expression(right, names),
            Eqn::Switch {
                span: _,
                cond,
                arms,
            } => {
                self.expression(cond, &[])?;
                self.arms(arms)
            }
            Eqn::Reset {
                span: _,
                body,
                cond,
            } => {
                self.block(body)?;
                self.expression(cond, &[])
            }
            Eqn::Automaton { span, states } => {
                self.add(Subject::State, Values::States(states), *span)?;
                self.add(Subject::Afresh, Values::Truth, *span)?;
                self.states(states)
            }
        }
    }

    #[cycle(blocks)]
    #[tactic(auto, using(crate::proofs::Rules::lines))]
    fn arms(&mut self, arms: &'a [Arm]) -> Result<(), AllocError> {
        for arm in arms {
            self.block(&arm.body)?;
        }
        Ok(())
    }

    #[cycle(blocks)]
    #[tactic(auto, using(crate::proofs::Rules::lines))]
    fn states(&mut self, states: &'a [State]) -> Result<(), AllocError> {
        for state in states {
            self.state(state)?;
        }
        Ok(())
    }

    /// Labels the body of a state, and its transitions.
    #[cycle(blocks)]
    #[tactic(auto, using(crate::proofs::Rules::lines))]
    fn state(&mut self, state: &'a State) -> Result<(), AllocError> {
        self.block(&state.body)?;
        self.conditions(&state.until)?;
        self.conditions(&state.unless)
    }

    fn told(&mut self, expr: &'a Option<Expr>) -> Result<(), AllocError> {
        match expr {
            None => Ok(()),
            Some(expr) => self.expression(expr, &[]),
        }
    }

    fn contract(&mut self, contract: &'a Contract) -> Result<(), AllocError> {
        self.block(&contract.body)?;
        self.told(&contract.assume)?;
        self.told(&contract.enforce)
    }

    fn rows(&mut self, node: &'a Node) -> Result<(), AllocError> {
        self.scope.add(&node.inputs)?;
        self.scope.add(&node.outputs)?;
        self.add_lasts(&node.outputs)
    }

    /// Labels what the contract of a node adds to a call of it.
    fn called(&mut self, node: &'a Node, contract: &'a Contract) -> Result<(), AllocError> {
        self.rows(node)?;
        self.contract(contract)
    }

    fn inputs(&mut self, node: &'a Node) -> Result<(), AllocError> {
        for input in &node.inputs {
            self.add_declared(Subject::Input(input), input)?;
        }
        Ok(())
    }

    fn controls(&mut self, controls: &'a [Decl]) -> Result<(), AllocError> {
        for control in controls {
            self.add_declared(Subject::Control(control), control)?;
        }
        Ok(())
    }

    fn node(&mut self, node: &'a Node) -> Result<(), AllocError> {
        self.inputs(node)?;
        self.rows(node)?;
        let controls = controls_of(&node.contract);
        self.controls(controls)?;
        if let Some(contract) = &node.contract {
            self.contract(contract)?;
        }
        // The contract sees no controllable variable, and may have a variable of the same name.
        self.scope.add(controls)?;
        self.block(&node.body)
    }
}

/// The labels of what the contract of a node adds to a call of it.
fn called_labels<'a>(
    alloc: Global,
    declared: &Declared<'a>,
    node: &'a Node,
    contract: &'a Contract,
) -> Result<Vec<Label<'a>>, AllocError> {
    let mut walk = Walk::new(alloc, declared, false);
    walk.called(node, contract)?;
    Ok(walk.labels)
}

/// What a program declares, with the labels of the contracts of its nodes.
fn declared_of<'a>(alloc: Global, program: &'a Program) -> Result<Declared<'a>, AllocError> {
    let mut declared = Declared::new(alloc, program)?;
    for item in &program.items {
        if let Item::NodeItem(node) = item
            && let Some(contract) = &node.contract
        {
            let labels = called_labels(alloc, &declared, node, contract)?;
            declared.keep(&node.name, &labels)?;
        }
    }
    Ok(declared)
}

/// The labels of the slots of a node of a program, in order.
pub fn labels_of<'a>(
    alloc: Global,
    program: &'a Program,
    node: &'a Node,
) -> Result<Vec<Label<'a>>, AllocError> {
    let declared = declared_of(alloc, program)?;
    let mut walk = Walk::new(alloc, &declared, true);
    walk.node(node)?;
    Ok(walk.labels)
}
