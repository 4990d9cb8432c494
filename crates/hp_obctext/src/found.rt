ghost use Rattle.std.specs.Prelude.{◌≡◌, [], None, not};
ghost use Rattle.hp_obctext.specs.Breaches.{passed_one, after};
ghost use Rattle.hp_obctext.specs.Rules.{comma};

/// The words of a text that were passed, and the first of them that breaks a rule of form.
#[derive(Clone, Copy, Debug)]
pub(crate) struct Found {
    /// How many words were passed.
    pub passed: usize,
    /// The number of the first one that breaks a rule.
    pub breach: Option<usize>,
}

impl Found {
    /// In front of all words.
    pub fn new() -> Found
        ensures passed { result.passed ≡ 0 }
        ensures breach { result.breach ≡ None }
    {
        Found {
            passed: 0,
            breach: None,
        }
    }

    /// Passes a word that keeps the rules, or does not.
    #[tactic(auto, unfolding(crate::specs::Breaches::passed_one))]
    pub fn word(&mut self, holds: bool)
        ensures { self.new ≡ passed_one self.old holds }
    {
        if !holds && self.breach.is_none() {
            self.breach = Some(self.passed);
        }
        self.passed = self.passed.saturating_add(1);
    }

    /// Passes the comma in front of an item that is not the first one.
    #[tactic(auto, using(crate::proofs::BreachLaws::passing))]
    pub fn comma(&mut self, first: bool)
        ensures { self.new ≡ after self.old (comma first) }
    {
        if !first {
            self.word(true);
        }
    }
}
