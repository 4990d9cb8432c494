//! The names of new variables, and how the names of a part of a program are said.
ghost use Rattle.std.specs.Prelude.{◌≡◌, ◌≤◌, ◌+◌, if◌then◌else◌, IfOk, OnOk};
ghost use Rattle.hp_expand.specs.NewNames.{is_new, stem, with_number, numbered_name, marked};
ghost use Rattle.hp_expand.specs.Numbering.{one_if_new, new_in_decls};
ghost use Rattle.hp_expand.specs.Layers.{no_number, put_at, put_if_new, numbers_from, says, number_in, name_by, said};

use hp_base::Name;
use hp_tables::renaming::Renaming;
use hp_tree::Decl;
use indexmap::IndexMap;
use itoa::Buffer;
use std::alloc::{AllocError, Global};

/// The sign that no name of a source text holds.
const SIGN: u8 = b'$';

/// The first bytes of the name, at most `room`, and the number behind a sign.
#[tactic(auto, using(crate::proofs::Rules::signs))]
fn with_number(alloc: Global, room: usize, text: &[u8], number: u64) -> Result<Name, AllocError>
    requires { room ≤ 262 }
    ensures { IfOk result (λ name. name ≡ with_number room text.now number) }
{
    let mut bytes = Vec::from_slice(alloc, &text[..text.len().min(room)])?;
    bytes.push(SIGN)?;
    let mut buffer = Buffer::new();
    bytes.extend_from_slice(buffer.format(number.min(999_999)).as_bytes())?;
    Name::new(alloc, &bytes)
}

/// The part of the name before the sign.
#[tactic(auto, using(crate::proofs::Rules::signs))]
fn stem(text: &[u8]) -> &[u8]
    ensures { result.now ≡ stem text.now }
{
    for i in 0..text.len() {
        if text[i] == SIGN {
            return &text[..i];
        }
    }
    text
}

/// Whether the name is that of a new variable.
#[tactic(auto, using(crate::proofs::Rules::signs))]
fn is_new(text: &[u8]) -> bool
    ensures { result ≡ is_new text.now }
{
    for i in 0..text.len() {
        if text[i] == SIGN {
            return true;
        }
    }
    false
}

/// What a block says of the names of new variables: their numbers.
#[derive(Drop)]
pub struct Layer<'a> {
    pub names: IndexMap<&'a [u8], u64>,
}

impl<'a> Layer<'a> {
    fn new(alloc: Global) -> Layer<'a>
        ensures { says result ≡ no_number }
    {
        Layer {
            names: IndexMap::new(alloc),
        }
    }

    /// The number that it gives the name.
    fn of(&self, name: &[u8]) -> Option<u64>
        ensures { result ≡ says self.now name.now }
    {
        match self.names.get(name) {
            None => None,
            Some(number) => Some(*number),
        }
    }

    fn put(&mut self, name: &'a [u8], number: u64) -> Result<(), AllocError>
        ensures { OnOk result (says self.new ≡ put_at (says self.old) name.now number) }
    {
        self.names.insert(name, number)?;
        Ok(())
    }

    /// Gives the next number to a name of a new variable.
    fn declare(&mut self, name: &'a [u8], next: &mut u64) -> Result<(), AllocError>
        ensures numbers { OnOk result (says self.new ≡ put_if_new (says self.old) name.now next.old) }
        ensures next { OnOk result (next.new ≡ next.old + one_if_new name.now) }
    {
        if is_new(name) {
            let number = take_number(next)?;
            self.put(name, number)?;
        }
        Ok(())
    }

    /// Numbers the new variables from `next` on.
    #[tactic(auto, using(crate::proofs::Rules::declared))]
    pub fn declaring(
        alloc: Global,
        decls: &'a [Decl],
        next: &mut u64,
    ) -> Result<Layer<'a>, AllocError>
        ensures numbers { IfOk result (λ layer. says layer ≡ numbers_from no_number next.old decls.now) }
        ensures next { OnOk result (next.new ≡ next.old + new_in_decls decls.now) }
    {
        let mut layer = Layer::new(alloc);
        for decl in decls {
            layer.declare(decl.name.bytes(), next)?;
        }
        Ok(layer)
    }
}

/// Takes the next number.
pub fn take_number(next: &mut u64) -> Result<u64, AllocError>
    ensures number { IfOk result (λ number. number ≡ next.old) }
    ensures next { OnOk result (next.new ≡ next.old + 1) }
{
    let number = *next;
    match number.checked_add(1) {
        None => Err(AllocError),
        Some(sum) => {
            *next = sum;
            Ok(number)
        }
    }
}

/// The number that these layers give the name, the outermost first.
#[tactic(auto, using(crate::proofs::Rules::layers))]
fn number_in(layers: &[Layer], name: &[u8]) -> Option<u64>
    ensures { result ≡ number_in layers.now name.now }
{
    let mut i = layers.len();
    while i > 0 {
        i -= 1;
        let layer = &layers[i];
        if let Some(number) = layer.of(name) {
            return Some(number);
        }
    }
    None
}

/// The name of a variable that has such a number, if any.
fn name_by(alloc: Global, name: &Name, number: Option<u64>) -> Result<Name, AllocError>
    ensures { IfOk result (λ said. said ≡ name_by name.now number) }
{
    match number {
        None => name.copy(alloc),
        Some(number) => with_number(alloc, 255, stem(name.bytes()), number),
    }
}

/// How names are said.
#[derive(Clone, Copy)]
pub enum Naming<'t> {
    /// As variables of the node whose call has this number.
    Marked(u64),
    /// New variables by the numbers that blocks give them, the outermost first.
    Numbered(&'t [Layer<'t>]),
}

impl<'t> Naming<'t> {
    /// How the name is said.
    pub fn name(&self, alloc: Global, name: &Name) -> Result<Name, AllocError>
        ensures { IfOk result (λ other. other ≡ said self.now name.now) }
    {
        match *self {
            Naming::Marked(number) => with_number(alloc, 262, name.bytes(), number),
            Naming::Numbered(layers) => name_by(alloc, name, number_in(layers, name.bytes())),
        }
    }
}

impl Renaming for Naming<'_> {
    ghost reads = { said };

    ghost declares = { said };

    fn read(&self, alloc: Global, name: &Name) -> Result<Name, AllocError> {
        self.name(alloc, name)
    }

    fn declared(&self, alloc: Global, name: &Name) -> Result<Name, AllocError> {
        self.name(alloc, name)
    }
}
