//! The text of equations and blocks.
ghost use Rattle.std.specs.Prelude.{◌≡◌, ◌∷◌, [], map, OnOk};
ghost use Rattle.hp_tree.specs.BlockView.{eqn_seen, arm_seen, state_seen};
ghost use Rattle.hp_tree.specs.Blocks.{eqns_of, arms_of, states_of};
ghost use Rattle.hp_print.specs.Tokens;
ghost use Rattle.hp_print.specs.Tokens.{led_by, joined_by, written_after};
ghost use Rattle.hp_print.specs.BlockTokens.{left_name, left_tokens, transition_tokens, transitions_tokens, body_tokens, inner_tokens, equations_tokens, equation_tokens, arms_tokens, states_tokens};

use crate::printer::Printer;
use hp_base::{Name, Span};
use hp_lexer::{Keyword, Sign};
use hp_tree::{Arm, Block, Eqn, State, Trans};
use std::alloc::AllocError;

#[tactic(auto, using(crate::proofs::Rules::written))]
impl Printer {
    /// The names on the left of an equation: one by itself, or any other number in parentheses.
    fn left(&mut self, names: &[(Name, Span)]) -> Result<(), AllocError>
        ensures { OnOk result (self.new ≡ written_after self.old (left_tokens names.now)) }
    {
        if names.len() == 1 {
            return self.names(names);
        }
        self.sign(Sign::Open)?;
        self.names(names)?;
        self.sign(Sign::Close)
    }

    fn names(&mut self, names: &[(Name, Span)]) -> Result<(), AllocError>
        ensures { OnOk result (self.new ≡ written_after self.old (joined_by (Tokens.sign Sign.Comma) (map left_name names.now))) }
    {
        match names {
            [] => Ok(()),
            [(first, _), others @ ..] => {
                self.small(first)?;
                self.more_names(others)
            }
        }
    }

    #[tactic(auto, using(crate::proofs::Rules::written_in_blocks))]
    fn more_names(&mut self, names: &[(Name, Span)]) -> Result<(), AllocError>
        ensures { OnOk result (self.new ≡ written_after self.old (led_by (Tokens.sign Sign.Comma) (map left_name names.now))) }
    {
        for (name, _) in names {
            self.sign(Sign::Comma)?;
            self.small(name)?;
        }
        Ok(())
    }

    fn transition(&mut self, transition: &Trans) -> Result<(), AllocError>
        ensures { OnOk result (self.new ≡ written_after self.old (transition_tokens transition.now)) }
    {
        self.expression(&transition.cond)?;
        self.word(if transition.restart {
            Keyword::Then
        } else {
            Keyword::Continue
        })?;
        self.capital(&transition.target)
    }

    /// Transitions behind their word, or nothing.
    fn transitions(&mut self, word: Keyword, transitions: &[Trans]) -> Result<(), AllocError>
        ensures { OnOk result (self.new ≡ written_after self.old (transitions_tokens word transitions.now)) }
    {
        match transitions {
            [] => Ok(()),
            [first, others @ ..] => {
                self.word(word)?;
                self.transition(first)?;
                self.more_transitions(others)
            }
        }
    }

    #[tactic(auto, using(crate::proofs::Rules::written_in_blocks))]
    fn more_transitions(&mut self, transitions: &[Trans]) -> Result<(), AllocError>
        ensures { OnOk result (self.new ≡ written_after self.old (led_by (Tokens.sign Sign.Bar) (map transition_tokens transitions.now))) }
    {
        for transition in transitions {
            self.sign(Sign::Bar)?;
            self.transition(transition)?;
        }
        Ok(())
    }

    /// A block behind `do`.
    #[cycle(blocks)]
    fn body(&mut self, block: &Block) -> Result<(), AllocError>
        ensures { OnOk result (self.new ≡ written_after self.old (body_tokens block.now)) }
    {
        self.variables(&block.locals)?;
        self.word(Keyword::Do)?;
        self.equations(&block.eqns)
    }

    /// The block of a `reset`.
    #[cycle(blocks)]
    fn inner(&mut self, block: &Block) -> Result<(), AllocError>
        ensures { OnOk result (self.new ≡ written_after self.old (inner_tokens block.now)) }
    {
        self.inner_variables(&block.locals)?;
        self.equations(&block.eqns)
    }

    #[cycle(blocks)]
    #[tactic(auto, using(crate::proofs::Rules::written_in_blocks))]
    pub fn equations(&mut self, eqns: &[Eqn]) -> Result<(), AllocError>
        ensures { OnOk result (self.new ≡ written_after self.old (equations_tokens (eqns_of (map eqn_seen eqns.now)))) }
    {
        for eqn in eqns {
            self.equation(eqn)?;
            self.sign(Sign::Semicolon)?;
        }
        Ok(())
    }

    #[cycle(blocks)]
    fn equation(&mut self, eqn: &Eqn) -> Result<(), AllocError>
        ensures { OnOk result (self.new ≡ written_after self.old (equation_tokens (eqn_seen eqn.now))) }
    {
        match eqn {
            Eqn::Def { names, right, .. } => {
                self.left(names)?;
                self.sign(Sign::Equal)?;
                self.expression(right)
            }
            Eqn::Switch { cond, arms, .. } => {
                self.word(Keyword::Switch)?;
                self.expression(cond)?;
                self.arms(arms)?;
                self.word(Keyword::End)
            }
            Eqn::Reset { body, cond, .. } => {
                self.word(Keyword::Reset)?;
                self.inner(body)?;
                self.word(Keyword::Every)?;
                self.expression(cond)
            }
            Eqn::Automaton { states, .. } => {
                self.word(Keyword::Automaton)?;
                self.states(states)?;
                self.word(Keyword::End)
            }
        }
    }

    #[cycle(blocks)]
    #[tactic(auto, using(crate::proofs::Rules::written_in_blocks))]
    fn arms(&mut self, arms: &[Arm]) -> Result<(), AllocError>
        ensures { OnOk result (self.new ≡ written_after self.old (arms_tokens (arms_of (map arm_seen arms.now)))) }
    {
        for arm in arms {
            self.sign(Sign::Bar)?;
            self.cons(&arm.cons)?;
            self.body(&arm.body)?;
        }
        Ok(())
    }

    #[cycle(blocks)]
    #[tactic(auto, using(crate::proofs::Rules::written_in_blocks))]
    fn states(&mut self, states: &[State]) -> Result<(), AllocError>
        ensures { OnOk result (self.new ≡ written_after self.old (states_tokens (states_of (map state_seen states.now)))) }
    {
        for state in states {
            self.state(state)?;
        }
        Ok(())
    }

    #[cycle(blocks)]
    fn state(&mut self, state: &State) -> Result<(), AllocError>
        ensures { OnOk result (self.new ≡ written_after self.old (states_tokens (states_of (state_seen state.now ∷ [])))) }
    {
        self.word(Keyword::State)?;
        self.capital(&state.name)?;
        self.body(&state.body)?;
        self.transitions(Keyword::Until, &state.until)?;
        self.transitions(Keyword::Unless, &state.unless)
    }
}
