//! Entering the clock of a path.
ghost use Rattle.std.specs.Prelude.{◌≡◌, ◌≤◌, ◌∷◌, ◌++◌, [], OnOk};
ghost use Rattle.hp_complete.specs.Drafting.{entered};
ghost use Rattle.hp_complete.specs.Drafts.{place_of, sketch_of};
ghost use Rattle.hp_complete.specs.Places.{at_depth, at_site, depth};

use crate::draft::Draft;
use hp_base::Name;
use hp_tree::Cons;
use std::alloc::AllocError;

impl<'d, 'a> Draft<'d, 'a> {
    /// One more step of the clock, by names.
    fn enter_step(&mut self, cons: &Cons, name: &Name) -> Result<(), AllocError>
        ensures sketch { OnOk result (sketch_of self.new ≡ (entered (place_of self.old) ((cons.now, name.now) ∷ []) (sketch_of self.old)).1) }
        ensures place { OnOk result (place_of self.new ≡ at_site (entered (place_of self.old) ((cons.now, name.now) ∷ []) (sketch_of self.old)).0 (place_of self.old)) }
    {
        let variable = self.tested(name)?;
        let number = self.number(cons);
        self.push_step(variable, number)?;
        Ok(())
    }

    /// Enters the clock of this path.
    pub fn enter_path(&mut self, path: &[(Cons, Name)]) -> Result<(), AllocError>
        ensures sketch { OnOk result (sketch_of self.new ≡ (entered (place_of self.old) path.now (sketch_of self.old)).1) }
        ensures place { OnOk result (place_of self.new ≡ at_site (entered (place_of self.old) path.now (sketch_of self.old)).0 (place_of self.old)) }
    {
        for (cons, name) in path {
            self.enter_step(cons, name)?;
        }
        Ok(())
    }

    /// Enters the clock of this path with one step more.
    pub fn enter_on(
        &mut self,
        path: &[(Cons, Name)],
        cons: &Cons,
        name: &Name,
    ) -> Result<(), AllocError>
        ensures sketch { OnOk result (sketch_of self.new ≡ (entered (place_of self.old) (path.now ++ (cons.now, name.now) ∷ []) (sketch_of self.old)).1) }
        ensures place { OnOk result (place_of self.new ≡ at_site (entered (place_of self.old) (path.now ++ (cons.now, name.now) ∷ []) (sketch_of self.old)).0 (place_of self.old)) }
    {
        self.enter_path(path)?;
        self.enter_step(cons, name)?;
        Ok(())
    }
}
