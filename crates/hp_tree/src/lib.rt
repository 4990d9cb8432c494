//! The syntax tree of a program and the meaning of streams over it. Invariant: contracts see each part as data of specs/, so that two trees are equal whatever their pointers and capacities. Used by all passes over the tree.
#![tactic(auto)]

mod block;
mod count;
mod decl;
mod expr;
mod program;

pub use block::{Arm, Block, Eqn, State, Trans, copy_left, copy_transitions};
pub use count::places;
pub use decl::{Cons, Decl, copy_clock, copy_decls, copy_last, same_decls};
pub use expr::{Expr, ExprKind, Op1, Op2};
pub use hp_base::{Const, Ty};
pub use program::{Contract, Item, Node, Program, TypeDecl, controls_of};
