ghost use Rattle.std.specs.Prelude.{◌≡◌};
ghost use Rattle.hp_base.specs.Limits;

/// What a limit of the language counts.
#[derive(Clone, Copy, Debug, PartialEq, Eq)]
pub enum What {
    /// Bytes of a source text.
    Size,
    /// Bytes of a name of a source text.
    Name,
    /// Blocks in each other.
    Nest,
    /// Levels of an expression.
    Depth,
    /// Inputs of a node.
    Inputs,
    /// Outputs of a node.
    Outputs,
    /// Constructors of a type.
    Constructors,
    /// Types of a program.
    Types,
    /// Places of a node.
    Places,
    /// Places of all nodes.
    Total,
    /// A node and all instances below it.
    Instances,
    /// Places summed over these instances.
    Cells,
    /// Nodes on a chain of calls.
    Calls,
    /// Steps in the clock of a block.
    Clock,
    /// Bits of a contract node that it remembers.
    Registers,
    /// Bits of a contract node that are known before its controllables.
    Early,
    /// Bits of the controllables of a contract node.
    Control,
    /// Bits of a contract node that are known behind its controllables.
    Late,
    /// Bytes of the text of a machine or a certificate.
    Text,
}

impl What {
    /// The most that there may be.
    pub fn most(self) -> u64
        ensures { result ≡ Limits.most self }
    {
        match self {
            What::Size => 1_048_576,
            What::Name => 255,
            What::Nest | What::Inputs | What::Outputs | What::Constructors => 64,
            What::Depth => 200,
            What::Types => 1_000,
            What::Places => 60_000,
            What::Total => 1_000_000,
            What::Instances => 100_000,
            What::Cells => 20_000_000,
            What::Calls | What::Clock | What::Registers | What::Early | What::Late => 64,
            What::Control => 16,
            What::Text => 67_108_864,
        }
    }

    /// The word for it in a diagnostic.
    pub fn word(self) -> &'static str
        ensures { result.now ≡ Limits.word self }
    {
        match self {
            What::Size => "size",
            What::Name => "name",
            What::Nest => "nest",
            What::Depth => "depth",
            What::Inputs => "inputs",
            What::Outputs => "outputs",
            What::Constructors => "constructors",
            What::Types => "types",
            What::Places => "places",
            What::Total => "total",
            What::Instances => "instances",
            What::Cells => "cells",
            What::Calls => "calls",
            What::Clock => "clock",
            What::Registers => "registers",
            What::Early => "early",
            What::Control => "control",
            What::Late => "late",
            What::Text => "text",
        }
    }
}

/// A limit that is passed.
#[derive(Clone, Copy, Debug, PartialEq, Eq)]
pub struct Limit {
    pub what: What,
    /// What was found, at most one more than the limit.
    pub found: u64,
}
