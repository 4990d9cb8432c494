//! Whether variables of a machine are those of a node.
ghost use Rattle.std.specs.Prelude.{◌≡◌, ◌∷◌, [], ◌↔◌, ℕ, List, IsTrue};
ghost use Rattle.hp_controlled.specs.Chosen.{truth};
ghost use Rattle.hp_machines.specs.Machined.{vars_of};

use hp_base::Ty;
use hp_obc::Var;
use hp_tree::Decl;

/// Whether a variable of a machine is declared so in a node.
fn is_var(var: &Var, decl: &Decl) -> bool
    ensures { IsTrue result ↔ (var.now ∷ [] ≡ vars_of (decl.now ∷ [])) }
{
    var.name.same(&decl.name) && var.ty.same(&decl.ty)
}

/// Whether the variables of a machine are those that a node declares.
pub fn are_vars(vars: &[Var], decls: &[Decl]) -> bool
    ensures { IsTrue result → (vars.now ≡ vars_of decls.now) }
{
    if vars.len() != decls.len() {
        return false;
    }
    for i in 0..vars.len() {
        if !is_var(&vars[i], &decls[i]) {
            return false;
        }
    }
    true
}

/// Whether a variable is a truth value.
fn is_truth(var: &Var) -> bool
    ensures { IsTrue result → (var.now ≡ truth var.now.name) }
{
    match var.ty {
        Ty::Bool => true,
        _ => false,
    }
}

/// Whether two variables are truth values.
pub fn are_truths(vars: &[Var]) -> bool
    ensures { IsTrue result → (assume : List ℕ) × (enforce : List ℕ) × (vars.now ≡ truth assume ∷ truth enforce ∷ []) }
{
    match vars {
        [assume, enforce] => is_truth(assume) && is_truth(enforce),
        _ => false,
    }
}
