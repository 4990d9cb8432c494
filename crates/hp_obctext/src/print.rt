//! The text of machines, word by word.
ghost use Rattle.std.specs.Prelude.{◌≡◌, ◌∷◌, [], List, ℕ, map, codes, length, slice_index_or, false, ◌<◌, ◌≤◌, OnOk, IfOk, IfErr};
ghost use Rattle.hp_base.specs.Limits.{most};
ghost use Rattle.hp_base.specs.declared.limit.What.TheVariants as what;
ghost use Rattle.hp_base.specs.declared.ty.Const.{Const};
ghost use Rattle.hp_obc.specs.CommandView.{cmd_seen};
ghost use Rattle.hp_obc.specs.Commands.{arms_of};
ghost use Rattle.hp_obctext.specs.Answers.{IsTextOf};
ghost use Rattle.hp_obctext.specs.Files.{const_word, type_word, arg_word, op_words, set_words, call_words, step_words, steps_words, branches_words, var_words, mem_words, inst_words, section, listed, each, comma, next_constructor, constructors_words, type_words, machine_words, file_words};
ghost use Rattle.hp_obctext.specs.Found.{labels_at, labels_seen, text_known, file_known};
ghost use Rattle.hp_obctext.specs.Labels.{said, said_by, said_in, text_by, file_of};
ghost use Rattle.hp_obctext.specs.Words.{Word, leading, fixed, small, capital, number, with_word, with_words, printed};

use crate::error::ObcErr;
use crate::labels::Labels;
use crate::page::Page;
use crate::scope::{Scope, known_types};
use hp_base::known::Known;
use hp_base::{Const, Name, Ty};
use hp_obc::{Arg, Cmd, Cmds, Machine, Mem, Obc, ObcOp, ObcType, Var};
use std::alloc::{AllocError, Global};

impl Page {
    fn constant(&mut self, constant: &Const) -> Result<(), AllocError>
        ensures { OnOk result (self.new ≡ with_word self.old (const_word constant.now)) }
    {
        match constant {
            Const::B(true) => self.fixed(b"true"),
            Const::B(false) => self.fixed(b"false"),
            Const::I(n) => self.number(*n),
            Const::E(name) => self.capital(name),
        }
    }

    fn ty(&mut self, ty: &Ty) -> Result<(), AllocError>
        ensures { OnOk result (self.new ≡ with_word self.old (type_word ty.now)) }
    {
        match ty {
            Ty::Bool => self.fixed(b"bool"),
            Ty::Int => self.fixed(b"int"),
            Ty::Enum(name) => self.small(name),
        }
    }

    fn arg(&mut self, arg: &Arg) -> Result<(), AllocError>
        ensures { OnOk result (self.new ≡ with_word self.old (arg_word arg.now)) }
    {
        match arg {
            Arg::Name(name) => self.small(name),
            Arg::Const(constant) => self.constant(constant),
        }
    }

    #[tactic(auto, using(crate::proofs::Writing::mapped))]
    fn args(&mut self, args: &[Arg]) -> Result<(), AllocError>
        ensures { OnOk result (self.new ≡ with_words self.old (map arg_word args.now)) }
    {
        for arg in args {
            self.arg(arg)?;
        }
        Ok(())
    }

    #[tactic(auto, using(crate::proofs::Writing::mapped))]
    fn names(&mut self, names: &[Name]) -> Result<(), AllocError>
        ensures { OnOk result (self.new ≡ with_words self.old (map small names.now)) }
    {
        for name in names {
            self.small(name)?;
        }
        Ok(())
    }

    #[tactic(auto, using(crate::proofs::Writing::writing))]
    fn op(&mut self, op: ObcOp) -> Result<(), AllocError>
        ensures { OnOk result (self.new ≡ with_words self.old (op_words op)) }
    {
        match op {
            ObcOp::Copy => Ok(()),
            ObcOp::Not => self.fixed(b"@not"),
            ObcOp::Neg => self.fixed(b"@neg"),
            ObcOp::Mux => self.fixed(b"@mux"),
            ObcOp::And => self.fixed(b"@and"),
            ObcOp::Or => self.fixed(b"@or"),
            ObcOp::Xor => self.fixed(b"@xor"),
            ObcOp::Imp => self.fixed(b"@imp"),
            ObcOp::Eq => self.fixed(b"@eq"),
            ObcOp::Ne => self.fixed(b"@ne"),
            ObcOp::Lt => self.fixed(b"@lt"),
            ObcOp::Le => self.fixed(b"@le"),
            ObcOp::Gt => self.fixed(b"@gt"),
            ObcOp::Ge => self.fixed(b"@ge"),
            ObcOp::Add => self.fixed(b"@add"),
            ObcOp::Sub => self.fixed(b"@sub"),
            ObcOp::Mul => self.fixed(b"@mul"),
            ObcOp::Div => self.fixed(b"@div"),
            ObcOp::Rem => self.fixed(b"@rem"),
        }
    }

    #[tactic(auto, using(crate::proofs::Writing::writing))]
    fn set(&mut self, name: &Name, op: ObcOp, args: &[Arg]) -> Result<(), AllocError>
        ensures { OnOk result (self.new ≡ with_words self.old (set_words name.now op args.now)) }
    {
        self.leading(b"set")?;
        self.small(name)?;
        self.op(op)?;
        self.args(args)
    }

    #[tactic(auto, using(crate::proofs::Writing::writing))]
    fn call(&mut self, inst: &Name, outs: &[Name], args: &[Arg]) -> Result<(), AllocError>
        ensures { OnOk result (self.new ≡ with_words self.old (call_words inst.now outs.now args.now)) }
    {
        self.leading(b"call")?;
        self.small(inst)?;
        self.fixed(b"(")?;
        self.names(outs)?;
        self.fixed(b")")?;
        self.fixed(b"(")?;
        self.args(args)?;
        self.fixed(b")")
    }

    #[tactic(auto, using(crate::proofs::Writing::writing))]
    fn var(&mut self, var: &Var) -> Result<(), AllocError>
        ensures { OnOk result (self.new ≡ with_words self.old (var_words var.now)) }
    {
        self.small(&var.name)?;
        self.fixed(b":")?;
        self.ty(&var.ty)
    }

    #[tactic(auto, using(crate::proofs::Writing::writing))]
    fn mem(&mut self, mem: &Mem) -> Result<(), AllocError>
        ensures { OnOk result (self.new ≡ with_words self.old (mem_words mem.now)) }
    {
        self.small(&mem.name)?;
        self.fixed(b":")?;
        self.ty(&mem.ty)?;
        self.fixed(b"=")?;
        self.constant(&mem.first)
    }

    #[tactic(auto, using(crate::proofs::Writing::writing))]
    fn inst(&mut self, inst: &(Name, Name)) -> Result<(), AllocError>
        ensures { OnOk result (self.new ≡ with_words self.old (inst_words inst.now)) }
    {
        self.small(&inst.0)?;
        self.fixed(b":")?;
        self.small(&inst.1)
    }

    #[tactic(auto, using(crate::proofs::Writing::listing))]
    fn vars(&mut self, vars: &[Var]) -> Result<(), AllocError>
        ensures { OnOk result (self.new ≡ with_words self.old (each (comma var_words) vars.now)) }
    {
        for var in vars {
            self.fixed(b",")?;
            self.var(var)?;
        }
        Ok(())
    }

    #[tactic(auto, using(crate::proofs::Writing::listing))]
    fn mems(&mut self, mems: &[Mem]) -> Result<(), AllocError>
        ensures { OnOk result (self.new ≡ with_words self.old (each (comma mem_words) mems.now)) }
    {
        for mem in mems {
            self.fixed(b",")?;
            self.mem(mem)?;
        }
        Ok(())
    }

    #[tactic(auto, using(crate::proofs::Writing::listing))]
    fn insts(&mut self, insts: &[(Name, Name)]) -> Result<(), AllocError>
        ensures { OnOk result (self.new ≡ with_words self.old (each (comma inst_words) insts.now)) }
    {
        for inst in insts {
            self.fixed(b",")?;
            self.inst(inst)?;
        }
        Ok(())
    }

    #[tactic(auto, using(crate::proofs::Writing::writing))]
    fn var_list(&mut self, vars: &[Var]) -> Result<(), AllocError>
        ensures { OnOk result (self.new ≡ with_words self.old (listed var_words vars.now)) }
    {
        match vars {
            [] => Ok(()),
            [first, others @ ..] => {
                self.var(first)?;
                self.vars(others)
            }
        }
    }

    #[tactic(auto, using(crate::proofs::Writing::writing))]
    fn mem_list(&mut self, mems: &[Mem]) -> Result<(), AllocError>
        ensures { OnOk result (self.new ≡ with_words self.old (listed mem_words mems.now)) }
    {
        match mems {
            [] => Ok(()),
            [first, others @ ..] => {
                self.mem(first)?;
                self.mems(others)
            }
        }
    }

    #[tactic(auto, using(crate::proofs::Writing::writing))]
    fn inst_list(&mut self, insts: &[(Name, Name)]) -> Result<(), AllocError>
        ensures { OnOk result (self.new ≡ with_words self.old (listed inst_words insts.now)) }
    {
        match insts {
            [] => Ok(()),
            [first, others @ ..] => {
                self.inst(first)?;
                self.insts(others)
            }
        }
    }

    #[tactic(auto, using(crate::proofs::Writing::writing))]
    fn var_section(&mut self, title: &[u8], vars: &[Var]) -> Result<(), AllocError>
        ensures { OnOk result (self.new ≡ with_words self.old (section title.now var_words vars.now)) }
    {
        self.leading(title)?;
        self.fixed(b"(")?;
        self.var_list(vars)?;
        self.fixed(b")")
    }

    #[tactic(auto, using(crate::proofs::Writing::writing))]
    fn mem_section(&mut self, mems: &[Mem]) -> Result<(), AllocError>
        ensures { OnOk result (self.new ≡ with_words self.old (section (codes "mem") mem_words mems.now)) }
    {
        self.leading(b"mem")?;
        self.fixed(b"(")?;
        self.mem_list(mems)?;
        self.fixed(b")")
    }

    #[tactic(auto, using(crate::proofs::Writing::writing))]
    fn inst_section(&mut self, insts: &[(Name, Name)]) -> Result<(), AllocError>
        ensures { OnOk result (self.new ≡ with_words self.old (section (codes "inst") inst_words insts.now)) }
    {
        self.leading(b"inst")?;
        self.fixed(b"(")?;
        self.inst_list(insts)?;
        self.fixed(b")")
    }

    #[tactic(auto, using(crate::proofs::Writing::listing))]
    fn more_constructors(&mut self, cons: &[Name]) -> Result<(), AllocError>
        ensures { OnOk result (self.new ≡ with_words self.old (each next_constructor cons.now)) }
    {
        for name in cons {
            self.leading(b"|")?;
            self.capital(name)?;
        }
        Ok(())
    }

    #[tactic(auto, using(crate::proofs::Writing::writing))]
    fn constructors(&mut self, cons: &[Name]) -> Result<(), AllocError>
        ensures { OnOk result (self.new ≡ with_words self.old (constructors_words cons.now)) }
    {
        match cons {
            [] => Ok(()),
            [first, others @ ..] => {
                self.capital(first)?;
                self.more_constructors(others)
            }
        }
    }

    #[tactic(auto, using(crate::proofs::Writing::writing))]
    fn type_declaration(&mut self, ty: &ObcType) -> Result<(), AllocError>
        ensures { OnOk result (self.new ≡ with_words self.old (type_words ty.now)) }
    {
        self.leading(b"type")?;
        self.small(&ty.name)?;
        self.fixed(b"=")?;
        self.constructors(&ty.cons)
    }

    #[tactic(auto, using(crate::proofs::Writing::listing))]
    fn types(&mut self, types: &[ObcType]) -> Result<(), AllocError>
        ensures { OnOk result (self.new ≡ with_words self.old (each type_words types.now)) }
    {
        for ty in types {
            self.type_declaration(ty)?;
        }
        Ok(())
    }

    /// The value for an arm.
    fn label(&mut self, labels: Labels, i: usize) -> Result<(), AllocError>
        requires { i < length (labels_seen labels) }
        ensures { OnOk result (self.new ≡ with_word self.old (const_word (slice_index_or (labels_seen labels.entry) i (Const.B false)))) }
    {
        match labels {
            Labels::Bools => self.fixed(if i == 0 { b"false" } else { b"true" }),
            Labels::Named(names) => self.capital(&names[i]),
            Labels::Nothing => unreachable!(),
        }
    }

    #[cycle(printing)]
    #[tactic(auto, using(crate::proofs::Writing::writing))]
    fn step(&mut self, scope: &Scope, cmd: &Cmd) -> Result<(), AllocError>
        ensures { OnOk result (self.new ≡ with_words self.old (step_words (said_by (labels_at scope.now) (cmd_seen cmd.now)))) }
    {
        match cmd {
            Cmd::Set { name, op, args } => self.set(name, *op, args),
            Cmd::Call { inst, outs, args } => self.call(inst, outs, args),
            Cmd::Restart { inst } => {
                self.leading(b"reset")?;
                self.small(inst)
            }
            Cmd::Case { name, arms } => {
                self.leading(b"case")?;
                self.small(name)?;
                self.arms(scope, scope.labels(name), arms)?;
                self.leading(b"end")
            }
        }
    }

    #[cycle(printing)]
    #[tactic(auto, using(crate::proofs::Saying::arms))]
    fn arms(&mut self, scope: &Scope, labels: Labels, arms: &[Cmds]) -> Result<(), AllocError>
        ensures { OnOk result (self.new ≡ with_words self.old (branches_words (said_in (labels_at scope.now) (labels_seen labels.entry) (arms_of arms.now)))) }
    {
        for i in 0..arms.len().min(labels.len()) {
            self.leading(b"|")?;
            self.label(labels, i)?;
            self.steps(scope, &arms[i])?;
        }
        Ok(())
    }

    #[cycle(printing)]
    #[tactic(auto, using(crate::proofs::Saying::steps))]
    fn steps(&mut self, scope: &Scope, cmds: &Cmds) -> Result<(), AllocError>
        ensures { OnOk result (self.new ≡ with_words self.old (steps_words (said (labels_at scope.now) cmds.now))) }
    {
        for cmd in &cmds.list {
            self.step(scope, cmd)?;
        }
        Ok(())
    }

    #[tactic(auto, using(crate::proofs::Writing::writing))]
    fn machine(&mut self, scope: &Scope, machine: &Machine) -> Result<(), AllocError>
        ensures { OnOk result (self.new ≡ with_words self.old (machine_words (text_by (labels_at scope.now) machine.now))) }
    {
        self.leading(b"machine")?;
        self.small(&machine.name)?;
        self.var_section(b"in", &machine.inputs)?;
        self.var_section(b"out", &machine.outputs)?;
        self.var_section(b"var", &machine.vars)?;
        self.mem_section(&machine.mems)?;
        self.inst_section(&machine.insts)?;
        self.leading(b"step")?;
        self.steps(scope, &machine.step)?;
        self.leading(b"end")
    }

    fn scoped_machine(
        &mut self,
        alloc: Global,
        types: &Known<'_, ObcType>,
        machine: &Machine,
    ) -> Result<(), AllocError>
        ensures { OnOk result (self.new ≡ with_words self.old (machine_words (text_known types.now machine.now))) }
    {
        let scope = Scope::new(alloc, types, machine)?;
        self.machine(&scope, machine)
    }

    #[tactic(auto, using(crate::proofs::Saying::machines))]
    fn machines(
        &mut self,
        alloc: Global,
        types: &Known<'_, ObcType>,
        machines: &[Machine],
    ) -> Result<(), AllocError>
        ensures { OnOk result (self.new ≡ with_words self.old (each machine_words (map (text_known types.now) machines.now))) }
    {
        for machine in machines {
            self.scoped_machine(alloc, types, machine)?;
        }
        Ok(())
    }
}

/// The same, with the types of the machines at hand.
fn text_of(alloc: Global, types: &Known<'_, ObcType>, o: &Obc) -> Result<Vec<u8>, AllocError>
    ensures { IfOk result (λ text. text.items ≡ printed (file_words (file_known types.now o.now))) }
{
    let mut page = Page::begun(alloc, b"obc")?;
    page.fixed(b"1")?;
    page.types(o.types())?;
    page.machines(alloc, types, o.machines())?;
    page.ended()
}

/// The text of the machines: `obc 1`, the types and the machines. Each of the words `type`, `machine`, `in`, `out`, `var`, `mem`, `inst`,
/// `step`, `set`, `call`, `reset`, `case`, `|` and `end` that the grammar fixes begins a line. All other words have a space in front.
pub fn print_obc(alloc: Global, o: &Obc) -> Result<Vec<u8>, ObcErr>
    ensures text { IfOk result (λ text. text.items ≡ printed (file_words (file_of o.now))) }
    ensures machines { IfOk result (λ text. length text.items ≤ most what.Text → IsTextOf text.items o.now) }
    ensures memory { IfErr result (λ e. e ≡ ObcErr.OutOfMemory) }
{
    let types = known_types(alloc, o.types())?;
    Ok(text_of(alloc, &types, o)?)
}
