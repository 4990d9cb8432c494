//! The grammar, read from left to right.
ghost use Rattle.std.specs.Prelude.{◌≡◌, ◌<◌, [], map, length, codes, IfOk};
ghost use Rattle.hp_obctext.specs.Outcomes.{Gives};
ghost use Rattle.hp_obctext.specs.Reading.{one, many, behind, listed, section, var, mem, inst, arity, args_behind, op_or_copy, assignment, names, args, call_step, reset_step, branch, branches, case_step, step, steps_within, next_constructor, constructors, type_declaration, types, machine, machines, file};
ghost use Rattle.hp_obctext.specs.StepView.{step_seen, branch_seen};
ghost use Rattle.hp_obctext.specs.Texts.{file_seen};

use crate::reader::Reader;
use crate::steps::{Branch, Step, Steps};
use crate::text::{File, Text};
use hp_base::Name;
use hp_lines::Stop;
use hp_obc::{Arg, Mem, ObcOp, ObcType, Var};

/// How many arguments an operator has.
fn arity(op: ObcOp) -> usize
    ensures { result ≡ arity op }
{
    match op {
        ObcOp::Copy | ObcOp::Not | ObcOp::Neg => 1,
        ObcOp::Mux => 3,
        _ => 2,
    }
}

impl<'t> Reader<'t> {
    /// `x : t`
    fn var(&mut self) -> Result<Var, Stop>
        ensures { Gives (λ v. v) result self.new (var self.old) }
    {
        let name = self.name()?;
        self.fixed(b":")?;
        let ty = self.ty()?;
        Ok(Var { name, ty })
    }

    /// `x : t = c`
    fn mem(&mut self) -> Result<Mem, Stop>
        ensures { Gives (λ m. m) result self.new (mem self.old) }
    {
        let name = self.name()?;
        self.fixed(b":")?;
        let ty = self.ty()?;
        self.fixed(b"=")?;
        let first = self.constant()?;
        Ok(Mem { name, ty, first })
    }

    /// `i : m`
    fn inst(&mut self) -> Result<(Name, Name), Stop>
        ensures { Gives (λ i. i) result self.new (inst self.old) }
    {
        let name = self.name()?;
        self.fixed(b":")?;
        Ok((name, self.name()?))
    }

    #[tactic(auto, using(crate::proofs::ListRounds::next_var_strict))]
    fn next_var(&mut self) -> Result<Var, Stop>
        ensures read { Gives (λ x. x) result self.new (behind (codes ",") var self.old) }
        ensures shorter { IfOk result (λ x. length self.new < length self.old) }
    {
        self.fixed(b",")?;
        self.var()
    }

    #[tactic(auto, using(crate::proofs::ListRounds::vars_end, crate::proofs::ListRounds::vars_pushed, crate::proofs::ListRounds::vars_refused))]
    fn vars(&mut self) -> Result<Vec<Var>, Stop>
        ensures { Gives (λ xs. xs.items) result self.new (listed var self.old) }
    {
        let mut vars = Vec::new(self.alloc);
        if self.is(b")") {
            return Ok(vars);
        }
        vars.push(self.var()?)?;
        while self.is(b",") {
            vars.push(self.next_var()?)?;
        }
        Ok(vars)
    }

    fn next_mem(&mut self) -> Result<Mem, Stop>
        ensures { Gives (λ x. x) result self.new (behind (codes ",") mem self.old) }
    {
        self.fixed(b",")?;
        self.mem()
    }

    #[tactic(auto, using(crate::proofs::ListRounds::mems_end, crate::proofs::ListRounds::mems_pushed, crate::proofs::ListRounds::mems_refused))]
    fn mems(&mut self) -> Result<Vec<Mem>, Stop>
        ensures { Gives (λ xs. xs.items) result self.new (listed mem self.old) }
    {
        let mut mems = Vec::new(self.alloc);
        if self.is(b")") {
            return Ok(mems);
        }
        mems.push(self.mem()?)?;
        while self.is(b",") {
            mems.push(self.next_mem()?)?;
        }
        Ok(mems)
    }

    #[tactic(auto, using(crate::proofs::ListRounds::next_inst_strict))]
    fn next_inst(&mut self) -> Result<(Name, Name), Stop>
        ensures read { Gives (λ x. x) result self.new (behind (codes ",") inst self.old) }
        ensures shorter { IfOk result (λ x. length self.new < length self.old) }
    {
        self.fixed(b",")?;
        self.inst()
    }

    #[tactic(auto, using(crate::proofs::ListRounds::insts_end, crate::proofs::ListRounds::insts_pushed, crate::proofs::ListRounds::insts_refused))]
    fn insts(&mut self) -> Result<Vec<(Name, Name)>, Stop>
        ensures { Gives (λ xs. xs.items) result self.new (listed inst self.old) }
    {
        let mut insts = Vec::new(self.alloc);
        if self.is(b")") {
            return Ok(insts);
        }
        insts.push(self.inst()?)?;
        while self.is(b",") {
            insts.push(self.next_inst()?)?;
        }
        Ok(insts)
    }

    fn var_section(&mut self, title: &[u8]) -> Result<Vec<Var>, Stop>
        ensures { Gives (λ xs. xs.items) result self.new (section title.now var self.old) }
    {
        self.fixed(title)?;
        self.fixed(b"(")?;
        let vars = self.vars()?;
        self.fixed(b")")?;
        Ok(vars)
    }

    fn mem_section(&mut self) -> Result<Vec<Mem>, Stop>
        ensures { Gives (λ xs. xs.items) result self.new (section (codes "mem") mem self.old) }
    {
        self.fixed(b"mem")?;
        self.fixed(b"(")?;
        let mems = self.mems()?;
        self.fixed(b")")?;
        Ok(mems)
    }

    fn inst_section(&mut self) -> Result<Vec<(Name, Name)>, Stop>
        ensures { Gives (λ xs. xs.items) result self.new (section (codes "inst") inst self.old) }
    {
        self.fixed(b"inst")?;
        self.fixed(b"(")?;
        let insts = self.insts()?;
        self.fixed(b")")?;
        Ok(insts)
    }

    #[tactic(auto, using(crate::proofs::ListRounds::names_end, crate::proofs::ListRounds::names_pushed, crate::proofs::ListRounds::names_refused))]
    fn names(&mut self) -> Result<Vec<Name>, Stop>
        ensures { Gives (λ xs. xs.items) result self.new (names self.old) }
    {
        let mut names = Vec::new(self.alloc);
        while self.is_other(b")") {
            names.push(self.name()?)?;
        }
        Ok(names)
    }

    #[tactic(auto, using(crate::proofs::ListRounds::args_end, crate::proofs::ListRounds::args_pushed, crate::proofs::ListRounds::args_refused))]
    fn args(&mut self) -> Result<Vec<Arg>, Stop>
        ensures { Gives (λ xs. xs.items) result self.new (args self.old) }
    {
        let mut args = Vec::new(self.alloc);
        while self.is_other(b")") {
            args.push(self.arg()?)?;
        }
        Ok(args)
    }

    /// An operator, or none in front of the argument of a copy.
    fn op_or_copy(&mut self) -> Result<ObcOp, Stop>
        ensures { Gives (λ op. op) result self.new (op_or_copy self.old) }
    {
        if self.is_op() {
            self.op()
        } else {
            Ok(ObcOp::Copy)
        }
    }

    /// So many arguments.
    #[tactic(auto, using(crate::proofs::ListRounds::args_done, crate::proofs::ListRounds::args_next, crate::proofs::ListRounds::args_stopped))]
    fn args_for(&mut self, count: usize) -> Result<Vec<Arg>, Stop>
        ensures { Gives (λ xs. xs.items) result self.new (args_behind count [] self.old) }
    {
        let mut args = Vec::new(self.alloc);
        let mut left = count;
        while left > 0 {
            args.push(self.arg()?)?;
            left -= 1;
        }
        Ok(args)
    }

    fn assignment(&mut self) -> Result<Step, Stop>
        ensures { Gives step_seen result self.new (assignment self.old) }
    {
        self.fixed(b"set")?;
        let name = self.name()?;
        let op = self.op_or_copy()?;
        let args = self.args_for(arity(op))?;
        Ok(Step::Set { name, op, args })
    }

    fn call_step(&mut self) -> Result<Step, Stop>
        ensures { Gives step_seen result self.new (call_step self.old) }
    {
        self.fixed(b"call")?;
        let inst = self.name()?;
        self.fixed(b"(")?;
        let outs = self.names()?;
        self.fixed(b")")?;
        self.fixed(b"(")?;
        let args = self.args()?;
        self.fixed(b")")?;
        Ok(Step::Call { inst, outs, args })
    }

    fn reset_step(&mut self) -> Result<Step, Stop>
        ensures { Gives step_seen result self.new (reset_step self.old) }
    {
        self.fixed(b"reset")?;
        Ok(Step::Restart { inst: self.name()? })
    }

    /// `| c steps`
    #[cycle(stepping)]
    fn branch(&mut self, deep: usize) -> Result<Branch, Stop>
        ensures { Gives branch_seen result self.new (branch (steps_within deep) self.old) }
    {
        self.fixed(b"|")?;
        let label = self.label()?;
        let steps = self.steps(deep)?;
        Ok(Branch { label, steps })
    }

    #[cycle(stepping)]
    #[tactic(auto, using(crate::proofs::StepRounds::branches_end, crate::proofs::StepRounds::branches_pushed, crate::proofs::StepRounds::branches_refused))]
    fn branches(&mut self, deep: usize) -> Result<Vec<Branch>, Stop>
        ensures { Gives (λ bs. map branch_seen bs.items) result self.new (branches (steps_within deep) self.old) }
    {
        let mut branches = Vec::new(self.alloc);
        while self.is(b"|") {
            branches.push(self.branch(deep)?)?;
        }
        Ok(branches)
    }

    #[cycle(stepping)]
    fn case_step(&mut self, deep: usize) -> Result<Step, Stop>
        ensures { Gives step_seen result self.new (case_step (steps_within deep) self.old) }
    {
        self.fixed(b"case")?;
        let name = self.name()?;
        let branches = self.branches(deep)?;
        self.fixed(b"end")?;
        Ok(Step::Case { name, branches })
    }

    /// A step, in whose arms so many may stand in each other.
    #[cycle(stepping)]
    fn step(&mut self, deep: usize) -> Result<Step, Stop>
        ensures { Gives step_seen result self.new (step (steps_within deep) self.old) }
    {
        if self.is(b"set") {
            self.assignment()
        } else if self.is(b"call") {
            self.call_step()
        } else if self.is(b"reset") {
            self.reset_step()
        } else {
            self.case_step(deep)
        }
    }

    /// Steps, where so many may stand in each other.
    #[cycle(stepping)]
    #[tactic(auto, using(crate::proofs::StepRounds::steps_none, crate::proofs::StepRounds::steps_begin, crate::proofs::StepRounds::steps_end, crate::proofs::StepRounds::steps_pushed, crate::proofs::StepRounds::steps_refused))]
    fn steps(&mut self, deep: usize) -> Result<Steps, Stop>
        ensures { Gives (λ ss. ss) result self.new (steps_within deep self.old) }
    {
        let mut list = Vec::new(self.alloc);
        if deep == 0 {
            return Ok(Steps { list });
        }
        while self.is_step() {
            list.push(self.step(deep - 1)?)?;
        }
        Ok(Steps { list })
    }

    #[tactic(auto, using(crate::proofs::ListRounds::next_constructor_strict))]
    fn next_constructor(&mut self) -> Result<Name, Stop>
        ensures read { Gives (λ x. x) result self.new (next_constructor self.old) }
        ensures shorter { IfOk result (λ x. length self.new < length self.old) }
    {
        self.fixed(b"|")?;
        self.constructor()
    }

    #[tactic(auto, using(crate::proofs::ListRounds::constructors_end, crate::proofs::ListRounds::constructors_pushed, crate::proofs::ListRounds::constructors_refused))]
    fn constructors(&mut self) -> Result<Vec<Name>, Stop>
        ensures { Gives (λ xs. xs.items) result self.new (constructors self.old) }
    {
        let mut constructors = Vec::new(self.alloc);
        constructors.push(self.constructor()?)?;
        while self.is(b"|") {
            constructors.push(self.next_constructor()?)?;
        }
        Ok(constructors)
    }

    fn type_declaration(&mut self) -> Result<ObcType, Stop>
        ensures { Gives (λ t. t) result self.new (type_declaration self.old) }
    {
        self.fixed(b"type")?;
        let name = self.name()?;
        self.fixed(b"=")?;
        let cons = self.constructors()?;
        Ok(ObcType { name, cons })
    }

    #[tactic(auto, using(crate::proofs::ListRounds::types_end, crate::proofs::ListRounds::types_pushed, crate::proofs::ListRounds::types_refused))]
    fn types(&mut self) -> Result<Vec<ObcType>, Stop>
        ensures { Gives (λ ts. ts.items) result self.new (types self.old) }
    {
        let mut types = Vec::new(self.alloc);
        while self.is(b"type") {
            types.push(self.type_declaration()?)?;
        }
        Ok(types)
    }

    fn machine(&mut self) -> Result<Text, Stop>
        ensures { Gives (λ m. m) result self.new (machine self.old) }
    {
        self.fixed(b"machine")?;
        let name = self.name()?;
        let inputs = self.var_section(b"in")?;
        let outputs = self.var_section(b"out")?;
        let vars = self.var_section(b"var")?;
        let mems = self.mem_section()?;
        let insts = self.inst_section()?;
        self.fixed(b"step")?;
        let steps = self.steps(301)?;
        self.fixed(b"end")?;
        Ok(Text {
            name,
            inputs,
            outputs,
            vars,
            mems,
            insts,
            steps,
        })
    }

    #[tactic(auto, using(crate::proofs::StepRounds::machines_end, crate::proofs::StepRounds::machines_pushed, crate::proofs::StepRounds::machines_refused))]
    fn machines(&mut self) -> Result<Vec<Text>, Stop>
        ensures { Gives (λ ms. ms.items) result self.new (machines self.old) }
    {
        let mut machines = Vec::new(self.alloc);
        while self.is(b"machine") {
            machines.push(self.machine()?)?;
        }
        Ok(machines)
    }

    /// The types and machines of a whole text. Steps stand at most 300 cases deep.
    pub(crate) fn file(&mut self) -> Result<File, Stop>
        ensures { Gives file_seen result self.new (file self.old) }
    {
        self.fixed(b"obc")?;
        self.fixed(b"1")?;
        let types = self.types()?;
        let machines = self.machines()?;
        if self.word().is_some() {
            return Err(Stop::Refused);
        }
        Ok(File { types, machines })
    }
}
