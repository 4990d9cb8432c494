//! The clocks of definitions.
ghost use Rattle.std.specs.Prelude.{◌≡◌, OnOk};
ghost use Rattle.law_equations.specs.Made.Making.{path_for};
ghost use Rattle.hp_complete.specs.Drafting.{entered};
ghost use Rattle.hp_complete.specs.Drafts.{place_of, sketch_of};
ghost use Rattle.hp_complete.specs.Places.{at_site};

use crate::draft::Draft;
use crate::names::Locals;
use hp_base::{Name, Span};
use hp_tables::telling::{Telling, told_by};
use hp_tree::Expr;
use std::alloc::AllocError;

impl<'d, 'a> Draft<'d, 'a> {
    /// Enters the clock of a definition.
    #[tactic(auto, using(crate::proofs::Rules::told))]
    pub fn enter_clock(
        &mut self,
        locals: &Locals,
        names: &[(Name, Span)],
        right: &Expr,
    ) -> Result<(), AllocError>
        ensures sketch { OnOk result (sketch_of self.new ≡ (entered (place_of self.old) (path_for locals.now.decls.now names.now right.now) (sketch_of self.old)).1) }
        ensures place { OnOk result (place_of self.new ≡ at_site (entered (place_of self.old) (path_for locals.now.decls.now names.now right.now) (sketch_of self.old)).0 (place_of self.old)) }
    {
        match told_by(names, right) {
            None => Ok(()),
            Some(Telling::Base) => Ok(()),
            Some(Telling::Of(name)) => {
                self.enter_path(locals.path(name.bytes()))?;
                Ok(())
            }
            Some(Telling::On(cons, name)) => {
                self.enter_on(locals.path(name.bytes()), cons, name)?;
                Ok(())
            }
        }
    }
}
