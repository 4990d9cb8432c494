//! The controller of a machine.
ghost use Rattle.std.specs.Prelude.{◌≡◌, ◌++◌, ◌≤◌, length, map, codes, IfOk};
ghost use Rattle.hp_boolx.specs.Machine.{game};
ghost use Rattle.hp_controller.specs.Controllers.{moved};
ghost use Rattle.hp_controller.specs.Controlling.{IsController};
ghost use Rattle.hp_diagram.specs.Diagrams.{Keeps};
ghost use Rattle.hp_synth.specs.Layouts.{variable};
ghost use Rattle.hp_synth.specs.Playing.{IsPlayed, Wins};

use crate::node::{has_few_variables, node_of_lines};
use hp_base::Name;
use hp_boolx::BoolMachine;
use hp_cert::certmade::make_page;
use hp_control::played_functions;
use hp_flat::FlatNode;
use hp_quant::Line;
use hp_synth::{Layout, Played};
use std::alloc::{AllocError, Global};

/// The name of the controller of a node.
fn controller_name(alloc: Global, node: &Name) -> Result<Name, AllocError>
    requires { length node.now ≤ 255 }
    ensures { IfOk result (λ name. name ≡ node.now ++ codes "$ctl") }
{
    let mut bytes = Vec::from_slice(alloc, node.bytes())?;
    bytes.extend_from_slice(b"$ctl")?;
    Name::new(alloc, &bytes)
}

/// Lines of a table where variables stand at places, as lines of these variables themselves.
fn named_lines(alloc: Global, layout: &Layout, lines: &[Line]) -> Result<Vec<Line>, AllocError>
    ensures { IfOk result (λ named. named.items ≡ map (moved (variable layout.now)) lines.now) }
{
    let mut named = Vec::with_capacity(alloc, lines.len())?;
    for line in lines {
        named.push(Line {
            var: layout.variable(line.var),
            low: line.low,
            high: line.high,
        })?;
    }
    Ok(named)
}

/// The controller of a machine in which nothing is forced: at each state and all early values it gives the preferred permitted choice, and the preference where none is
/// permitted. It has a line for each node of its functions in the solver's order of variables, in which there are few. The function of each earlier reference stays.
pub fn controller(alloc: Global, p: &mut Played, m: &BoolMachine) -> Result<FlatNode, AllocError>
    requires played { IsPlayed (game m.now) p.old }
    requires won { Wins p.old.end }
    requires name { length m.now.name ≤ 255 }
    ensures controller { IfOk result (IsController m.now) }
    ensures keeps { Keeps p.old.table p.new.table }
{
    let counts = m.counts;
    let funs = played_functions(alloc, p, m)?;
    let page = make_page(alloc, &p.table, &funs)?;
    let lines = named_lines(alloc, &p.layout, &page.lines)?;
    let name = controller_name(alloc, &m.name)?;
    let node = node_of_lines(
        alloc,
        &name,
        counts.registers + counts.early,
        &lines,
        &page.numbers,
    )?;
    has_few_variables(&node);
    Ok(node)
}
