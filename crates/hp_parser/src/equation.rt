//! Transitions, equations and blocks.
ghost use Rattle.std.specs.Prelude.{◌≡◌, ◌<◌, ◌≤◌, ◌||◌, List, map, length, IfOk};
ghost use Rattle.hp_lexer.specs.declared.token.Keyword.TheVariants.{Then, Continue};
ghost use Rattle.hp_lexer.specs.declared.token.Sign.TheVariants.{Bar};
ghost use Rattle.hp_tree.specs.BlockView.{eqn_seen, arm_seen, state_seen};
ghost use Rattle.hp_parser.specs.BlockGrammar.{transition, transitions, all_transitions, definition, placed};
ghost use Rattle.hp_parser.specs.Descent.{measured_seen};
ghost use Rattle.hp_parser.specs.Grammar.{behind};
ghost use Rattle.hp_parser.specs.Lexemes.{is_ahead};
ghost use Rattle.hp_parser.specs.Nesting.{expression_read, nested, first_transition_read, transitions_read, transitions_seen, next_placed_read, placed_names_read, one_name_read, left_read, left_seen, inner_variables_read, equation_read, control_read, switched_read, arm_read, arms_read, branched_read, arm_behind_read, restarted_read, moded_read, state_read, states_read, body_read, inner_read};
ghost use Rattle.hp_parser.specs.Tokens.{begins_equation, begins_control, keyword, sign_of, capital};
ghost use Rattle.hp_parser.specs.Outcomes.{Gives};
ghost use Rattle.hp_parser.specs.Reading.{reading, read_token, read_convert};

use crate::fault::{Fault, Stop};
use crate::measured::Measured;
use crate::mode::Mode;
use crate::reader::Reader;
use hp_base::{Name, Span, What};
use hp_lexer::{Keyword, Sign};
use hp_tree::{Arm, Block, Cons, Decl, Eqn, State, Trans};

/// How many levels an expression may have.
const DEPTH: usize = 200;

/// The transitions of a state.
#[derive(Debug, Drop)]
pub(crate) struct Transitions {
    pub until: Vec<Trans>,
    pub unless: Vec<Trans>,
}

/// The left side of an equation.
#[derive(Debug, Drop)]
pub(crate) struct Left {
    pub first: Span,
    pub names: Vec<(Name, Span)>,
}

impl<'t> Reader<'t> {
    /// An expression of as many levels as there may be.
    #[tactic(auto, unfolding(crate::specs::Nesting::expression_read))]
    pub(crate) fn any_expression(&mut self, mode: Mode) -> Result<Measured, Stop>
        ensures { Gives measured_seen result self.new (expression_read mode self.old) }
    {
        self.expression(mode, DEPTH)
    }

    /// A capital name with its place.
    pub(crate) fn placed_capital(&mut self) -> Result<(Name, Span), Stop>
        ensures { Gives (λ name. name) result self.new (read_convert placed (read_token capital) self.old) }
    {
        let word = self.capital()?;
        Ok((Name::new(self.alloc, word.text)?, word.span))
    }

    /// `then`, or else `continue`.
    fn restarts(&mut self) -> Result<bool, Stop>
        ensures { Gives (λ b. b) result self.new (read_convert (λ t. keyword Then t.kind) (read_token (λ k. keyword Then k || keyword Continue k)) self.old) }
    {
        if self.is_keyword(Keyword::Then) {
            self.keyword(Keyword::Then)?;
            return Ok(true);
        }
        self.keyword(Keyword::Continue)?;
        Ok(false)
    }

    /// A condition, `then` or `continue`, and a state.
    fn transition(&mut self) -> Result<Trans, Stop>
        ensures { Gives (λ t. t) result self.new (transition reading expression_read self.old) }
    {
        let cond = self.any_expression(Mode::Plain)?;
        let restart = self.restarts()?;
        let (target, _) = self.placed_capital()?;
        Ok(Trans {
            cond: cond.expr,
            restart,
            target,
            span: cond.first,
        })
    }

    /// A bar and a transition.
    fn next_transition(&mut self) -> Result<Trans, Stop>
        ensures { Gives (λ t. t) result self.new (behind reading (sign_of Bar) (transition reading expression_read) self.old) }
    {
        self.sign(Sign::Bar)?;
        self.transition()
    }

    /// A transition that a bar may precede.
    fn first_transition(&mut self) -> Result<Trans, Stop>
        ensures { Gives (λ t. t) result self.new (first_transition_read self.old) }
    {
        if self.is_sign(Sign::Bar) {
            return self.next_transition();
        }
        self.transition()
    }

    /// Transitions with bars between them; one may stand in front.
    #[tactic(auto, using(crate::proofs::TransitionRounds::next_transition_strict, crate::proofs::TransitionRounds::transitions_begin, crate::proofs::TransitionRounds::transitions_end, crate::proofs::TransitionRounds::transitions_more))]
    fn transitions(&mut self) -> Result<Vec<Trans>, Stop>
        ensures { Gives (λ ts. ts.items) result self.new (transitions reading expression_read self.old) }
    {
        let mut transitions = Vec::new(self.alloc);
        transitions.push(self.first_transition()?)?;
        while self.is_sign(Sign::Bar) {
            transitions.push(self.next_transition()?)?;
        }
        Ok(transitions)
    }

    /// A keyword with transitions, or none.
    fn transitions_behind(&mut self, word: Keyword) -> Result<Vec<Trans>, Stop>
        ensures { Gives (λ ts. ts.items) result self.new (transitions_read word self.old) }
    {
        if !self.is_keyword(word) {
            return Ok(Vec::new(self.alloc));
        }
        self.keyword(word)?;
        self.transitions()
    }

    /// The weak and the strong transitions of a state, whichever stand first.
    #[tactic(auto, using(crate::proofs::TransitionRounds::unless_until, crate::proofs::TransitionRounds::until_unless))]
    fn all_transitions(&mut self) -> Result<Transitions, Stop>
        ensures { Gives transitions_seen result self.new (all_transitions reading expression_read self.old) }
    {
        if self.is_keyword(Keyword::Unless) {
            let unless = self.transitions_behind(Keyword::Unless)?;
            let until = self.transitions_behind(Keyword::Until)?;
            return Ok(Transitions { until, unless });
        }
        let until = self.transitions_behind(Keyword::Until)?;
        let unless = self.transitions_behind(Keyword::Unless)?;
        Ok(Transitions { until, unless })
    }

    /// A comma and a name.
    fn next_placed(&mut self) -> Result<(Name, Span), Stop>
        ensures { Gives (λ name. name) result self.new (next_placed_read self.old) }
    {
        self.sign(Sign::Comma)?;
        self.placed_name()
    }

    /// Names in parentheses, or none.
    #[tactic(auto, using(crate::proofs::TransitionRounds::next_placed_strict, crate::proofs::TransitionRounds::placed_begin, crate::proofs::TransitionRounds::placed_end, crate::proofs::TransitionRounds::placed_more))]
    fn placed_names(&mut self) -> Result<Vec<(Name, Span)>, Stop>
        ensures { Gives (λ names. names.items) result self.new (placed_names_read self.old) }
    {
        let mut names = Vec::new(self.alloc);
        if !self.is_small() {
            return Ok(names);
        }
        names.push(self.placed_name()?)?;
        while self.is_sign(Sign::Comma) {
            names.push(self.next_placed()?)?;
        }
        Ok(names)
    }

    /// The names on the left of an equation: one, or some in parentheses.
    fn left(&mut self) -> Result<Left, Stop>
        ensures { Gives left_seen result self.new (left_read self.old) }
    {
        if self.is_small() {
            return self.one_name();
        }
        let first = self.sign(Sign::Open)?.span;
        let names = self.placed_names()?;
        self.sign(Sign::Close)?;
        Ok(Left { first, names })
    }

    /// The left side that is one name.
    fn one_name(&mut self) -> Result<Left, Stop>
        ensures { Gives left_seen result self.new (one_name_read self.old) }
    {
        let (name, span) = self.placed_name()?;
        let mut names = Vec::new(self.alloc);
        names.push((name, span))?;
        Ok(Left { first: span, names })
    }

    /// `x = e` or `(x, y) = e`
    fn definition(&mut self) -> Result<Eqn, Stop>
        ensures { Gives eqn_seen result self.new (definition reading expression_read self.old) }
    {
        let left = self.left()?;
        self.sign(Sign::Equal)?;
        let right = self.any_expression(Mode::Whole)?;
        Ok(Eqn::Def {
            span: left.first,
            names: left.names,
            right: right.expr,
        })
    }

    /// Whether an equation that has blocks in it is ahead.
    fn is_control(&self) -> bool
        ensures { result ≡ is_ahead begins_control self.now }
    {
        self.is_keyword(Keyword::Switch)
            || self.is_keyword(Keyword::If)
            || self.is_keyword(Keyword::Reset)
            || self.is_keyword(Keyword::Automaton)
    }

    /// Whether an equation is ahead.
    fn is_equation(&self) -> bool
        ensures { result ≡ is_ahead begins_equation self.now }
    {
        self.is_small() || self.is_sign(Sign::Open) || self.is_control()
    }

    /// Declarations behind `var` and in front of `in`, or none.
    fn inner_variables(&mut self) -> Result<Vec<Decl>, Stop>
        ensures { Gives (λ ds. ds.items) result self.new (inner_variables_read self.old) }
    {
        if !self.is_keyword(Keyword::Var) {
            return Ok(Vec::new(self.alloc));
        }
        let locals = self.variables()?;
        self.keyword(Keyword::In)?;
        Ok(locals)
    }

    /// Equations with semicolons between them; a semicolon may end them, and there may be none.
    /// Their blocks are at most `nest` in each other.
    #[cycle(equations)]
    #[tactic(auto, using(crate::proofs::EquationRounds::equations_none, crate::proofs::EquationRounds::equations_begin, crate::proofs::EquationRounds::equations_end, crate::proofs::EquationRounds::equations_close, crate::proofs::EquationRounds::equations_refused, crate::proofs::EquationRounds::equations_more, crate::proofs::EquationRounds::equations_shrink))]
    pub(crate) fn equations(&mut self, nest: usize) -> Result<Vec<Eqn>, Stop>
        requires { 1 ≤ nest }
        ensures { Gives (λ es. map eqn_seen es.items) result self.new (nested nest self.old) }
    {
        let mut equations = Vec::new(self.alloc);
        if !self.is_equation() {
            return Ok(equations);
        }
        equations.push(self.equation(nest)?)?;
        while self.is_sign(Sign::Semicolon) {
            self.sign(Sign::Semicolon)?;
            if !self.is_equation() {
                return Ok(equations);
            }
            equations.push(self.equation(nest)?)?;
        }
        Ok(equations)
    }

    /// One equation, which has blocks in it only where there may be one more.
    #[cycle(equations)]
    #[tactic(auto, using(crate::proofs::EquationRounds::equation_plain, crate::proofs::EquationRounds::equation_refused, crate::proofs::EquationRounds::equation_control))]
    fn equation(&mut self, nest: usize) -> Result<Eqn, Stop>
        requires { 1 ≤ nest }
        ensures { Gives eqn_seen result self.new (equation_read nest self.old) }
    {
        if !self.is_control() {
            return self.definition();
        }
        if nest < 2 {
            return Err(Stop::Fault(Fault::Limit(What::Nest)));
        }
        self.control(nest)
    }

    /// An equation that has blocks in it.
    #[cycle(equations)]
    fn control(&mut self, nest: usize) -> Result<Eqn, Stop>
        requires { 2 ≤ nest }
        ensures { Gives eqn_seen result self.new (control_read nest self.old) }
    {
        if self.is_keyword(Keyword::Switch) {
            self.parse_switch(nest)
        } else if self.is_keyword(Keyword::If) {
            self.parse_if(nest)
        } else if self.is_keyword(Keyword::Reset) {
            self.parse_reset(nest)
        } else {
            self.parse_automaton(nest)
        }
    }

    /// `switch e | c do .. end`
    #[cycle(equations)]
    #[tactic(auto, using(crate::proofs::EquationRounds::switched_parts))]
    fn parse_switch(&mut self, nest: usize) -> Result<Eqn, Stop>
        requires { 2 ≤ nest }
        ensures { Gives eqn_seen result self.new (switched_read nest self.old) }
    {
        let span = self.keyword(Keyword::Switch)?.span;
        let cond = self.any_expression(Mode::Whole)?.expr;
        let arms = self.arms(nest)?;
        self.keyword(Keyword::End)?;
        Ok(Eqn::Switch { span, cond, arms })
    }

    /// The arms of a `switch`.
    #[cycle(equations)]
    #[tactic(auto, using(crate::proofs::EquationRounds::arm_strict, crate::proofs::EquationRounds::arms_begin, crate::proofs::EquationRounds::arms_end, crate::proofs::EquationRounds::arms_refused, crate::proofs::EquationRounds::arms_pushed))]
    fn arms(&mut self, nest: usize) -> Result<Vec<Arm>, Stop>
        requires { 2 ≤ nest }
        ensures { Gives (λ arms. map arm_seen arms.items) result self.new (arms_read nest self.old) }
    {
        let mut arms = Vec::new(self.alloc);
        arms.push(self.arm(nest)?)?;
        while self.is_sign(Sign::Bar) {
            arms.push(self.arm(nest)?)?;
        }
        Ok(arms)
    }

    /// `| c do ..`
    #[cycle(equations)]
    fn arm(&mut self, nest: usize) -> Result<Arm, Stop>
        requires { 2 ≤ nest }
        ensures { Gives arm_seen result self.new (arm_read nest self.old) }
    {
        self.sign(Sign::Bar)?;
        let (cons, span) = self.placed_constructor()?;
        let body = self.body(nest)?;
        Ok(Arm { cons, body, span })
    }

    /// `if e then .. else .. end`, a `switch` whose arms have the places of `then` and `else`.
    #[cycle(equations)]
    fn parse_if(&mut self, nest: usize) -> Result<Eqn, Stop>
        requires { 2 ≤ nest }
        ensures { Gives eqn_seen result self.new (branched_read nest self.old) }
    {
        let span = self.keyword(Keyword::If)?.span;
        let cond = self.any_expression(Mode::Whole)?.expr;
        let yes = self.arm_behind(Cons::True, Keyword::Then, nest)?;
        let no = self.arm_behind(Cons::False, Keyword::Else, nest)?;
        self.keyword(Keyword::End)?;
        let mut arms = Vec::new(self.alloc);
        arms.push(yes)?;
        arms.push(no)?;
        Ok(Eqn::Switch { span, cond, arms })
    }

    /// A word and the block behind it.
    #[cycle(equations)]
    fn arm_behind(&mut self, cons: Cons, word: Keyword, nest: usize) -> Result<Arm, Stop>
        requires { 2 ≤ nest }
        ensures { Gives arm_seen result self.new (arm_behind_read cons word nest self.old) }
    {
        let span = self.keyword(word)?.span;
        let body = self.inner(nest)?;
        Ok(Arm { cons, body, span })
    }

    /// `reset .. every e`
    #[cycle(equations)]
    fn parse_reset(&mut self, nest: usize) -> Result<Eqn, Stop>
        requires { 2 ≤ nest }
        ensures { Gives eqn_seen result self.new (restarted_read nest self.old) }
    {
        let span = self.keyword(Keyword::Reset)?.span;
        let body = self.inner(nest)?;
        self.keyword(Keyword::Every)?;
        let cond = self.any_expression(Mode::Whole)?.expr;
        Ok(Eqn::Reset { span, body, cond })
    }

    /// `automaton state .. end`
    #[cycle(equations)]
    #[tactic(auto, using(crate::proofs::EquationRounds::moded_parts))]
    fn parse_automaton(&mut self, nest: usize) -> Result<Eqn, Stop>
        requires { 2 ≤ nest }
        ensures { Gives eqn_seen result self.new (moded_read nest self.old) }
    {
        let span = self.keyword(Keyword::Automaton)?.span;
        let states = self.states(nest)?;
        self.keyword(Keyword::End)?;
        Ok(Eqn::Automaton { span, states })
    }

    /// The states of an automaton.
    #[cycle(equations)]
    #[tactic(auto, using(crate::proofs::EquationRounds::state_strict, crate::proofs::EquationRounds::states_begin, crate::proofs::EquationRounds::states_end, crate::proofs::EquationRounds::states_refused, crate::proofs::EquationRounds::states_pushed))]
    fn states(&mut self, nest: usize) -> Result<Vec<State>, Stop>
        requires { 2 ≤ nest }
        ensures { Gives (λ states. map state_seen states.items) result self.new (states_read nest self.old) }
    {
        let mut states = Vec::new(self.alloc);
        states.push(self.state(nest)?)?;
        while self.is_keyword(Keyword::State) {
            states.push(self.state(nest)?)?;
        }
        Ok(states)
    }

    /// `state S do ..` and transitions.
    #[cycle(equations)]
    fn state(&mut self, nest: usize) -> Result<State, Stop>
        requires { 2 ≤ nest }
        ensures { Gives state_seen result self.new (state_read nest self.old) }
    {
        self.keyword(Keyword::State)?;
        let (name, span) = self.placed_capital()?;
        let body = self.body(nest)?;
        let transitions = self.all_transitions()?;
        Ok(State {
            name,
            body,
            until: transitions.until,
            unless: transitions.unless,
            span,
        })
    }

    /// A block behind `do`: `var .. do ..`
    #[cycle(equations)]
    fn body(&mut self, nest: usize) -> Result<Block, Stop>
        requires { 2 ≤ nest }
        ensures { Gives (λ b. b) result self.new (body_read nest self.old) }
    {
        let locals = self.variables()?;
        self.keyword(Keyword::Do)?;
        let eqns = self.equations(nest - 1)?;
        Ok(Block { locals, eqns })
    }

    /// A block of an `if` or a `reset`: `var .. in ..`
    #[cycle(equations)]
    fn inner(&mut self, nest: usize) -> Result<Block, Stop>
        requires { 2 ≤ nest }
        ensures { Gives (λ b. b) result self.new (inner_read nest self.old) }
    {
        let locals = self.inner_variables()?;
        let eqns = self.equations(nest - 1)?;
        Ok(Block { locals, eqns })
    }
}
