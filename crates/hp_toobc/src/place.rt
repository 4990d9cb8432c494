//! What is done for an equation.
ghost use Rattle.std.specs.Prelude.{◌≡◌, ◌++◌, ◌∷◌, [], map, IfOk, OnOk};
ghost use Rattle.hp_obc.specs.declared.command.Arg.TheVariants.{Name as NameArg, Const as ConstArg};
ghost use Rattle.hp_obc.specs.declared.command.ObcOp.TheVariants.{Copy};
ghost use Rattle.hp_obc.specs.Commands.{set, restart as reset};
ghost use Rattle.hp_obc.specs.CommandView.{cmd_seen};
ghost use Rattle.hp_flat.specs.Equations.{operator, register, called};
ghost use Rattle.hp_toobc.specs.Tables.{constant};
ghost use Rattle.hp_toobc.specs.Making.{first_name, memory_name, instance_name, under, where_true, set_first, placed, place as in_place, store, places, stores};

use crate::label::made_name;
use crate::table::Tables;
use hp_base::{Name, Value};
use hp_flat::{Atom, FlatEqn, FlatRight};
use hp_obc::{Arg, Cmd, ObcOp};
use std::alloc::{AllocError, Global};

/// The letter of memories.
const MEMORY: u8 = b'm';

/// The letter of instances.
const INSTANCE: u8 = b'n';

/// The name of an instance of the node, which an equation at a place among all calls.
pub fn instance_name(alloc: Global, node: &Name, place: usize) -> Result<Name, AllocError>
    ensures { IfOk result (λ name. name ≡ instance_name node.now place) }
{
    made_name(alloc, node.bytes(), INSTANCE, place)
}

/// The one argument.
fn only(alloc: Global, arg: Arg) -> Result<Vec<Arg>, AllocError>
    ensures { IfOk result (λ args. args.items ≡ arg ∷ []) }
{
    let mut args = Vec::new(alloc);
    args.push(arg)?;
    Ok(args)
}

/// The command that copies a value into the variable or memory of a name.
fn copy_of(alloc: Global, name: Name, arg: Arg) -> Result<Cmd, AllocError>
    ensures { IfOk result (λ cmd. cmd_seen cmd ≡ set name Copy (arg ∷ [])) }
{
    let args = only(alloc, arg)?;
    Ok(Cmd::Set {
        name,
        op: ObcOp::Copy,
        args,
    })
}

impl Tables<'_> {
    fn first_name(&self, alloc: Global, targets: &[usize]) -> Result<Name, AllocError>
        ensures { IfOk result (λ name. name ≡ first_name self.now.variables.now targets.now) }
    {
        match targets {
            [] => Name::new(alloc, &[]),
            [target, ..] => self.name(alloc, *target),
        }
    }

    /// The name of the memory of a register with these targets, at a place among all equations.
    pub fn memory_name(
        &self,
        alloc: Global,
        targets: &[usize],
        place: usize,
    ) -> Result<Name, AllocError>
        ensures { IfOk result (λ name. name ≡ memory_name self.now.variables.now targets.now place) }
    {
        let target = self.first_name(alloc, targets)?;
        made_name(alloc, target.bytes(), MEMORY, place)
    }

    /// The command that gives the first target the value of an operator.
    fn first_set(
        &self,
        alloc: Global,
        targets: &[usize],
        op: ObcOp,
        args: Vec<Arg>,
    ) -> Result<Vec<Cmd>, AllocError>
        ensures { IfOk result (λ cmds. map cmd_seen cmds.items ≡ set_first self.now.types.now self.now.variables.now targets.now op args.items) }
    {
        let mut cmds = Vec::new(alloc);
        if let [target, ..] = targets {
            let name = self.name(alloc, *target)?;
            cmds.push(Cmd::Set { name, op, args })?;
        }
        Ok(cmds)
    }

    /// Adds the commands, done where the clock holds.
    #[tactic(auto, using(crate::proofs::Rules::added))]
    fn add_under(
        &self,
        alloc: Global,
        clock: &[(usize, u8)],
        cmds: Vec<Cmd>,
        into: &mut Vec<Cmd>,
    ) -> Result<(), AllocError>
        ensures { OnOk result (map cmd_seen into.new.items ≡ map cmd_seen into.old.items ++ under self.now.types.now self.now.variables.now clock.now (map cmd_seen cmds.items)) }
    {
        let mut there = self.under(alloc, clock, cmds)?;
        into.append(&mut there)?;
        Ok(())
    }

    /// Adds the command, done where the clock holds.
    fn add_one_under(
        &self,
        alloc: Global,
        clock: &[(usize, u8)],
        cmd: Cmd,
        into: &mut Vec<Cmd>,
    ) -> Result<(), AllocError>
        ensures { OnOk result (map cmd_seen into.new.items ≡ map cmd_seen into.old.items ++ under self.now.types.now self.now.variables.now clock.now (cmd_seen cmd ∷ [])) }
    {
        let mut cmds = Vec::new(alloc);
        cmds.push(cmd)?;
        self.add_under(alloc, clock, cmds, into)
    }

    /// Adds what gives a memory its first value again, for each variable that may be true.
    #[tactic(auto, using(crate::proofs::Rules::added))]
    fn add_begins(
        &self,
        alloc: Global,
        memory: &Name,
        first: Value,
        restart: &[usize],
        into: &mut Vec<Cmd>,
    ) -> Result<(), AllocError>
        ensures { OnOk result (map cmd_seen into.new.items ≡ map cmd_seen into.old.items ++ where_true self.now.types.now self.now.variables.now restart.now (set memory.now Copy (ConstArg (constant self.now.types.now first) ∷ []))) }
    {
        for variable in restart {
            let arg = Arg::Const(self.constant(alloc, first)?);
            let begin = copy_of(alloc, memory.copy(alloc)?, arg)?;
            into.push(self.where_it_holds(alloc, *variable, begin)?)?;
        }
        Ok(())
    }

    /// Adds what resets an instance, for each variable that may be true.
    #[tactic(auto, using(crate::proofs::Rules::added))]
    fn add_resets(
        &self,
        alloc: Global,
        instance: &Name,
        restart: &[usize],
        into: &mut Vec<Cmd>,
    ) -> Result<(), AllocError>
        ensures { OnOk result (map cmd_seen into.new.items ≡ map cmd_seen into.old.items ++ where_true self.now.types.now self.now.variables.now restart.now (reset instance.now)) }
    {
        for variable in restart {
            let inst = instance.copy(alloc)?;
            into.push(self.where_it_holds(alloc, *variable, Cmd::Restart { inst })?)?;
        }
        Ok(())
    }

    /// Adds what is done for a register.
    fn add_register(
        &self,
        alloc: Global,
        place: usize,
        first: Value,
        eqn: &FlatEqn,
        into: &mut Vec<Cmd>,
    ) -> Result<(), AllocError>
        ensures { OnOk result (map cmd_seen into.new.items ≡ map cmd_seen into.old.items ++ (where_true self.now.types.now self.now.variables.now eqn.now.restart (set (memory_name self.now.variables.now eqn.now.targets place) Copy (ConstArg (constant self.now.types.now first) ∷ [])) ++ under self.now.types.now self.now.variables.now eqn.now.clock (set_first self.now.types.now self.now.variables.now eqn.now.targets Copy (NameArg (memory_name self.now.variables.now eqn.now.targets place) ∷ [])))) }
    {
        let memory = self.memory_name(alloc, &eqn.targets, place)?;
        self.add_begins(alloc, &memory, first, &eqn.restart, into)?;
        let args = only(alloc, Arg::Name(memory))?;
        let cmds = self.first_set(alloc, &eqn.targets, ObcOp::Copy, args)?;
        self.add_under(alloc, &eqn.clock, cmds, into)
    }

    /// Adds what is done for a call of a node.
    fn add_call(
        &self,
        alloc: Global,
        place: usize,
        node: &Name,
        args: &[Atom],
        eqn: &FlatEqn,
        into: &mut Vec<Cmd>,
    ) -> Result<(), AllocError>
        ensures { OnOk result (map cmd_seen into.new.items ≡ map cmd_seen into.old.items ++ placed self.now.types.now self.now.variables.now place eqn.now.targets eqn.now.clock eqn.now.restart (called node.now args.now)) }
    {
        let inst = instance_name(alloc, node, place)?;
        self.add_resets(alloc, &inst, &eqn.restart, into)?;
        let outs = self.names(alloc, &eqn.targets)?;
        let args = self.arguments(alloc, args)?;
        self.add_one_under(alloc, &eqn.clock, Cmd::Call { inst, outs, args }, into)
    }

    /// Adds what is done for an equation in its place.
    fn add_place(
        &self,
        alloc: Global,
        place: usize,
        eqn: &FlatEqn,
        into: &mut Vec<Cmd>,
    ) -> Result<(), AllocError>
        ensures { OnOk result (map cmd_seen into.new.items ≡ map cmd_seen into.old.items ++ in_place self.now.types.now self.now.variables.now place eqn.now) }
    {
        match &eqn.right {
            FlatRight::Op(op, args) => {
                let args = self.arguments(alloc, args)?;
                let cmds = self.first_set(alloc, &eqn.targets, *op, args)?;
                self.add_under(alloc, &eqn.clock, cmds, into)
            }
            FlatRight::Register { first, next: _ } => {
                self.add_register(alloc, place, *first, eqn, into)
            }
            FlatRight::Call { node, args } => { self.add_call(alloc, place, node, args, eqn, into) }
        }
    }

    /// Adds what is done for an equation behind all.
    fn add_store(
        &self,
        alloc: Global,
        place: usize,
        eqn: &FlatEqn,
        into: &mut Vec<Cmd>,
    ) -> Result<(), AllocError>
        ensures { OnOk result (map cmd_seen into.new.items ≡ map cmd_seen into.old.items ++ store self.now.types.now self.now.variables.now place eqn.now) }
    {
        if let FlatRight::Register { first: _, next } = &eqn.right {
            let memory = self.memory_name(alloc, &eqn.targets, place)?;
            let arg = self.argument(alloc, *next)?;
            let cmd = copy_of(alloc, memory, arg)?;
            self.add_one_under(alloc, &eqn.clock, cmd, into)?;
        }
        Ok(())
    }

    /// Adds what is done for each equation in its place.
    #[tactic(auto, using(crate::proofs::Rules::places))]
    pub fn add_places(
        &self,
        alloc: Global,
        eqns: &[FlatEqn],
        into: &mut Vec<Cmd>,
    ) -> Result<(), AllocError>
        ensures { OnOk result (map cmd_seen into.new.items ≡ map cmd_seen into.old.items ++ places self.now.types.now self.now.variables.now 0 eqns.now) }
    {
        for i in 0..eqns.len() {
            self.add_place(alloc, i, &eqns[i], into)?;
        }
        Ok(())
    }

    /// Adds what is done for each equation behind all.
    #[tactic(auto, using(crate::proofs::Rules::stores))]
    pub fn add_stores(
        &self,
        alloc: Global,
        eqns: &[FlatEqn],
        into: &mut Vec<Cmd>,
    ) -> Result<(), AllocError>
        ensures { OnOk result (map cmd_seen into.new.items ≡ map cmd_seen into.old.items ++ stores self.now.types.now self.now.variables.now 0 eqns.now) }
    {
        for i in 0..eqns.len() {
            self.add_store(alloc, i, &eqns[i], into)?;
        }
        Ok(())
    }
}
