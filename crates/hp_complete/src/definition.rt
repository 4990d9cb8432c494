//! The equations of definitions.
ghost use Rattle.std.specs.Prelude.{◌≡◌, Some, drop, OnOk};
ghost use Rattle.law_equations.specs.Made.Making.{bind, bind_all, sketch_definition, sketch_right};
ghost use Rattle.hp_complete.specs.Drafting.{bind_each, number_left};
ghost use Rattle.hp_complete.specs.Drafts.{place_of, sketch_of};
ghost use Rattle.hp_complete.specs.Places.{sees};

use crate::draft::Draft;
use crate::names::Locals;
use hp_base::{Name, Span};
use hp_tree::{Expr, ExprKind};
use std::alloc::AllocError;

impl<'d, 'a> Draft<'d, 'a> {
    /// A definition.
    pub fn definition(
        &mut self,
        locals: &Locals<'a>,
        names: &[(Name, Span)],
        right: &Expr,
    ) -> Result<(), AllocError>
        ensures sketch { OnOk result (sketch_of self.new ≡ sketch_definition (place_of self.old).known (sees (place_of self.old)) (place_of self.old).site locals.now.decls.now names.now right.now (sketch_of self.old)) }
        ensures place { OnOk result (place_of self.new ≡ place_of self.old) }
    {
        let depth = self.depth();
        self.enter_clock(locals, names, right)?;
        self.defined(names, right)?;
        self.leave_clock(depth);
        Ok(())
    }

    #[tactic(auto, using(crate::proofs::Rules::bound))]
    fn defined(&mut self, names: &[(Name, Span)], right: &Expr) -> Result<(), AllocError>
        ensures sketch { OnOk result (sketch_of self.new ≡ sketch_right (place_of self.old).known (sees (place_of self.old)) (place_of self.old).site names.now right.now (sketch_of self.old)) }
        ensures place { OnOk result (place_of self.new ≡ place_of self.old) }
    {
        match &*right.kind {
            ExprKind::Call {
                node,
                inlined: _,
                args,
            } => {
                let outputs = self.call(node, args)?;
                self.bind_outputs(names, &outputs)?;
                Ok(())
            }
            _ => {
                let variable = self.expr(right)?;
                self.bind_all(names, variable)?;
                Ok(())
            }
        }
    }

    /// The variable of a name takes the value of another.
    fn bind_name(&mut self, name: &Name, source: Option<usize>) -> Result<(), AllocError>
        ensures sketch { OnOk result (sketch_of self.new ≡ bind (place_of self.old).site (sees (place_of self.old) name.now).value source (sketch_of self.old)) }
        ensures place { OnOk result (place_of self.new ≡ place_of self.old) }
    {
        let entry = self.sight(name.bytes());
        self.bind(entry.value, source)?;
        Ok(())
    }

    fn bind_all(&mut self, names: &[(Name, Span)], variable: usize) -> Result<(), AllocError>
        ensures sketch { OnOk result (sketch_of self.new ≡ bind_all (sees (place_of self.old)) (place_of self.old).site names.now variable (sketch_of self.old)) }
        ensures place { OnOk result (place_of self.new ≡ place_of self.old) }
    {
        for (name, _) in names {
            self.bind_name(name, Some(variable))?;
        }
        Ok(())
    }

    /// The variables of the names take the values of these, each of one, as far as there are some.
    fn bind_outputs(&mut self, names: &[(Name, Span)], outputs: &[usize]) -> Result<(), AllocError>
        ensures sketch { OnOk result (sketch_of self.new ≡ bind_each (sees (place_of self.old)) (place_of self.old).site names.now outputs.now (sketch_of self.old)) }
        ensures place { OnOk result (place_of self.new ≡ place_of self.old) }
    {
        for i in 0..names.len() {
            let (name, _) = &names[i];
            self.bind_name(name, number_at(outputs, i))?;
        }
        Ok(())
    }
}

/// The number at this place, if there is one.
fn number_at(numbers: &[usize], place: usize) -> Option<usize>
    ensures { result ≡ number_left (drop place numbers.now) }
{
    if place < numbers.len() {
        return Some(numbers[place]);
    }
    None
}
