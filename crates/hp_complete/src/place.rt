//! Going to another place of the tree, and back.
ghost use Rattle.std.specs.Prelude.{◌≡◌, ◌∷◌, [], None, IfOk, OnOk};
ghost use Rattle.law_equations.specs.Made.Making.{given_by, hidden, in_block, no_entry, off_site, on_site, put, restart_site, tested, with_flag};
ghost use Rattle.hp_complete.specs.Drafting.{hidden_at, linked_at};
ghost use Rattle.hp_complete.specs.Drafts.{place_of, sketch_of};
ghost use Rattle.hp_complete.specs.Layers.{inner_first, seen};
ghost use Rattle.hp_complete.specs.Names.{names_seen};
ghost use Rattle.hp_complete.specs.Places.{at_base, at_depth, at_site, back_on, depth, left, others, sees, sees_around, sees_beyond, unrestarted, saying, within};

use crate::draft::Draft;
use crate::layer::{Entry, Layer, sight};
use hp_base::Name;
use hp_flat::FlatTy;
use std::alloc::AllocError;

/// What is the block's own around a block.
#[derive(Clone, Copy)]
pub struct Around {
    pub base: usize,
    pub flag: Option<usize>,
}

/// The layers around the innermost one.
#[tactic(auto, using(crate::proofs::Rules::layers))]
fn outer_layers<'t, 'a>(layers: &'t [Layer<'a>]) -> &'t [Layer<'a>]
    ensures { inner_first result.now ≡ others (inner_first layers.now) }
{
    &layers[..layers.len().saturating_sub(1)]
}

impl<'d, 'a> Draft<'d, 'a> {
    /// How many steps the clock has.
    #[tactic(auto, unfolding(crate::specs::Drafts::place_of))]
    pub fn depth(&self) -> usize
        ensures { result ≡ depth (place_of self.now) }
    {
        self.clock.len()
    }

    /// One more step of the clock.
    #[tactic(auto, unfolding(crate::specs::Drafts::place_of, crate::specs::Drafts::sketch_of, crate::specs::Places::at_depth))]
    pub fn push_step(&mut self, variable: usize, number: u8) -> Result<(), AllocError>
        ensures sketch { OnOk result (sketch_of self.new ≡ sketch_of self.old) }
        ensures place { OnOk result (place_of self.new ≡ at_site (on_site (place_of self.old).site variable number) (place_of self.old)) }
        ensures back { OnOk result (at_depth (depth (place_of self.old)) (place_of self.new) ≡ place_of self.old) }
    {
        self.clock.push((variable, number))?;
        Ok(())
    }

    /// Leaves the steps of the clock behind the first ones, which are so many.
    #[tactic(auto, unfolding(crate::specs::Drafts::place_of, crate::specs::Drafts::sketch_of, crate::specs::Places::at_depth))]
    pub fn leave_clock(&mut self, depth: usize)
        ensures sketch { sketch_of self.new ≡ sketch_of self.old }
        ensures place { place_of self.new ≡ at_depth depth (place_of self.old) }
    {
        self.clock.truncate(depth);
    }

    /// Leaves the innermost step that the clock has beside those of the block.
    #[tactic(auto, unfolding(crate::specs::Drafts::place_of, crate::specs::Drafts::sketch_of, crate::specs::Places::back_on))]
    pub fn pop_own_step(&mut self) -> Option<(usize, u8)>
        ensures sketch { sketch_of self.new ≡ sketch_of self.old }
        ensures place { place_of self.new ≡ at_site (off_site (place_of self.old).site) (place_of self.old) }
        ensures back { back_on result (place_of self.new) ≡ place_of self.old }
    {
        if self.clock.len() > self.base {
            return self.clock.pop();
        }
        None
    }

    /// Goes back on a step.
    #[tactic(auto, unfolding(crate::specs::Places::back_on))]
    pub fn push_back(&mut self, step: Option<(usize, u8)>) -> Result<(), AllocError>
        ensures sketch { OnOk result (sketch_of self.new ≡ sketch_of self.old) }
        ensures place { OnOk result (place_of self.new ≡ back_on step (place_of self.old)) }
    {
        match step {
            None => Ok(()),
            Some((variable, number)) => {
                self.push_step(variable, number)?;
                Ok(())
            }
        }
    }

    /// The variable of a clock's name; one that is never there for a name that is not known.
    pub fn tested(&mut self, name: &Name) -> Result<usize, AllocError>
        ensures sketch { OnOk result (sketch_of self.new ≡ (tested (sees (place_of self.old) name.now).value (sketch_of self.old)).0) }
        ensures number { IfOk result (λ x. x ≡ (tested (sees (place_of self.old) name.now).value (sketch_of self.old)).1) }
        ensures place { OnOk result (place_of self.new ≡ place_of self.old) }
    {
        match self.sight(name.bytes()).value {
            Some(variable) => Ok(variable),
            None => {
                let variable = self.add_new(b"e", FlatTy::Bool)?;
                Ok(variable)
            }
        }
    }

    /// Begins a layer.
    #[tactic(auto, unfolding(crate::specs::Drafts::place_of, crate::specs::Drafts::sketch_of, crate::specs::Places::left), using(crate::proofs::Rules::layers))]
    pub fn open(&mut self) -> Result<(), AllocError>
        ensures sketch { OnOk result (sketch_of self.new ≡ sketch_of self.old) }
        ensures place { OnOk result (place_of self.new ≡ within no_entry (place_of self.old)) }
        ensures back { OnOk result (left (place_of self.new) ≡ place_of self.old) }
    {
        let outer = std::mem::replace(&mut self.own, Layer::new(self.alloc));
        self.layers.push(outer)?;
        Ok(())
    }

    /// Leaves the innermost layer.
    #[tactic(auto, unfolding(crate::specs::Drafts::place_of, crate::specs::Drafts::sketch_of, crate::specs::Places::left), using(crate::proofs::Rules::layers))]
    pub fn close(&mut self)
        ensures sketch { sketch_of self.new ≡ sketch_of self.old }
        ensures place { place_of self.new ≡ left (place_of self.old) }
    {
        if let Some(outer) = self.layers.pop() {
            self.own = outer;
        }
    }

    #[tactic(auto, unfolding(crate::specs::Drafts::place_of, crate::specs::Drafts::sketch_of))]
    pub fn put(&mut self, name: &'a [u8], entry: Entry) -> Result<(), AllocError>
        ensures sketch { OnOk result (sketch_of self.new ≡ sketch_of self.old) }
        ensures place { OnOk result (place_of self.new ≡ saying (put name.now (seen entry) (place_of self.old).own) (place_of self.old)) }
    {
        self.own.put(name, entry)?;
        Ok(())
    }

    /// What the name stands for outside of the innermost layer.
    #[tactic(auto, unfolding(crate::specs::Drafts::place_of), using(crate::proofs::Rules::sights))]
    pub fn around(&self, name: &[u8]) -> Entry
        ensures ty { result.ty ≡ (sees_around (place_of self.now) name.now).ty }
        ensures value { result.value ≡ (sees_around (place_of self.now) name.now).value }
        ensures last { result.last ≡ (sees_around (place_of self.now) name.now).last }
        ensures is_local { result.is_local ≡ (sees_around (place_of self.now) name.now).is_local }
    {
        sight(&self.layers, name)
    }

    /// Inside a control equation that defines a name its last value is read.
    fn hide_name(&mut self, name: &'a [u8]) -> Result<(), AllocError>
        ensures sketch { OnOk result (sketch_of self.new ≡ sketch_of self.old) }
        ensures place { OnOk result (place_of self.new ≡ hidden_at (name.now ∷ []) (place_of self.old)) }
    {
        let outside = self.around(name);
        self.put(
            name,
            Entry {
                ty: outside.ty,
                value: outside.last,
                last: outside.last,
                is_local: false,
            },
        )?;
        Ok(())
    }

    fn hide_all(&mut self, names: &[&'a [u8]]) -> Result<(), AllocError>
        ensures sketch { OnOk result (sketch_of self.new ≡ sketch_of self.old) }
        ensures place { OnOk result (place_of self.new ≡ hidden_at (names_seen names.now) (place_of self.old)) }
    {
        for i in 0..names.len() {
            self.hide_name(names[i])?;
        }
        Ok(())
    }

    /// Enters a control equation that defines these names.
    #[tactic(auto, using(crate::proofs::Rules::hidden))]
    pub fn hide(&mut self, names: &[&'a [u8]]) -> Result<(), AllocError>
        ensures sketch { OnOk result (sketch_of self.new ≡ sketch_of self.old) }
        ensures place { OnOk result (place_of self.new ≡ within (hidden (names_seen names.now) (sees (place_of self.old))) (place_of self.old)) }
        ensures back { OnOk result (left (place_of self.new) ≡ place_of self.old) }
    {
        self.open()?;
        self.hide_all(names)?;
        Ok(())
    }

    /// What the name stands for outside of the control equation in whose block this place is.
    #[tactic(auto, unfolding(crate::specs::Drafts::place_of), using(crate::proofs::Rules::sights))]
    fn beyond(&self, name: &[u8]) -> Entry
        ensures { seen result ≡ sees_beyond (place_of self.now) name.now }
    {
        sight(outer_layers(&self.layers), name)
    }

    /// What a block of a control equation gives a name: the variable that it has in the block, and its last value where the block leaves it out.
    #[tactic(auto, unfolding(crate::specs::Drafts::place_of))]
    fn given(&self, name: &[u8], outside: Entry) -> Option<usize>
        ensures { result ≡ given_by ((place_of self.now).own name.now) (seen outside) }
    {
        match self.own.of(name) {
            None => outside.last,
            Some(entry) => {
                if entry.is_local {
                    outside.last
                } else {
                    entry.value
                }
            }
        }
    }

    #[tactic(auto, using(crate::proofs::Rules::sights))]
    fn link(&mut self, name: &[u8]) -> Result<(), AllocError>
        ensures sketch { OnOk result (sketch_of self.new ≡ linked_at (name.now ∷ []) (place_of self.old) (sketch_of self.old)) }
        ensures place { OnOk result (place_of self.new ≡ place_of self.old) }
    {
        let outside = self.beyond(name);
        let given = self.given(name, outside);
        self.bind(outside.value, given)?;
        Ok(())
    }

    /// Outside of the control equation each of these names takes what the block gives it.
    pub fn link_all(&mut self, names: &[&'a [u8]]) -> Result<(), AllocError>
        ensures sketch { OnOk result (sketch_of self.new ≡ linked_at (names_seen names.now) (place_of self.old) (sketch_of self.old)) }
        ensures place { OnOk result (place_of self.new ≡ place_of self.old) }
    {
        for i in 0..names.len() {
            self.link(names[i])?;
        }
        Ok(())
    }

    /// The place becomes that of a block, on its clock.
    #[tactic(auto, unfolding(crate::specs::Drafts::place_of, crate::specs::Drafts::sketch_of, crate::specs::Places::at_base))]
    pub fn enter_block(&mut self) -> Around
        ensures sketch { sketch_of self.new ≡ with_flag None (sketch_of self.old) }
        ensures place { place_of self.new ≡ at_site (in_block (place_of self.old).site) (place_of self.old) }
        ensures back { at_base result.base (place_of self.new) ≡ place_of self.old }
        ensures base { result.base ≡ (place_of self.old).site.base }
        ensures flag { result.flag ≡ (sketch_of self.old).flag }
    {
        let around = Around {
            base: self.base,
            flag: self.flag,
        };
        self.base = self.clock.len();
        self.flag = None;
        around
    }

    /// Behind a block what is the block's own is as it was.
    #[tactic(auto, unfolding(crate::specs::Drafts::place_of, crate::specs::Drafts::sketch_of, crate::specs::Places::at_base))]
    pub fn leave_block(&mut self, around: Around)
        ensures sketch { sketch_of self.new ≡ with_flag around.flag (sketch_of self.old) }
        ensures place { place_of self.new ≡ at_base around.base (place_of self.old) }
    {
        self.base = around.base;
        self.flag = around.flag;
    }

    #[tactic(auto, unfolding(crate::specs::Drafts::place_of, crate::specs::Drafts::sketch_of, crate::specs::Places::unrestarted))]
    pub fn push_restart(&mut self, variable: usize) -> Result<(), AllocError>
        ensures sketch { OnOk result (sketch_of self.new ≡ sketch_of self.old) }
        ensures place { OnOk result (place_of self.new ≡ at_site (restart_site (place_of self.old).site variable) (place_of self.old)) }
        ensures back { OnOk result (unrestarted (place_of self.new) ≡ place_of self.old) }
    {
        self.restart.push(variable)?;
        Ok(())
    }

    #[tactic(auto, unfolding(crate::specs::Drafts::place_of, crate::specs::Drafts::sketch_of, crate::specs::Places::unrestarted))]
    pub fn pop_restart(&mut self)
        ensures sketch { sketch_of self.new ≡ sketch_of self.old }
        ensures place { place_of self.new ≡ unrestarted (place_of self.old) }
    {
        self.restart.pop();
    }
}
