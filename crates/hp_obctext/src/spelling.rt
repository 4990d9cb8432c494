//! What a single word stands for.
ghost use Rattle.std.specs.Prelude.{◌≡◌, ◌≤◌, length, Some, IfOk, IsSome};
ghost use Rattle.hp_obctext.specs.Spelling.{name_of, constructor_of, ty_of, label_of, const_of, arg_of, op_of, comparison_of, arithmetic_of};

use hp_base::{Const, Name, Ty};
use hp_lines::read_int;
use hp_obc::spelling::{spells_constructor, spells_name};
use hp_obc::{Arg, ObcOp};
use std::alloc::{AllocError, Global};

#[tactic(auto, using(crate::proofs::SpellingLaws::names_are_short))]
pub(crate) fn name_of(alloc: Global, word: &[u8]) -> Result<Option<Name>, AllocError>
    ensures { IfOk result (λ o. o ≡ name_of word.now) }
{
    if spells_name(word) {
        Ok(Some(Name::new(alloc, word)?))
    } else {
        Ok(None)
    }
}

#[tactic(auto, using(crate::proofs::SpellingLaws::constructors_are_short))]
pub(crate) fn constructor_of(alloc: Global, word: &[u8]) -> Result<Option<Name>, AllocError>
    ensures { IfOk result (λ o. o ≡ constructor_of word.now) }
{
    if spells_constructor(word) {
        Ok(Some(Name::new(alloc, word)?))
    } else {
        Ok(None)
    }
}

pub(crate) fn ty_of(alloc: Global, word: &[u8]) -> Result<Option<Ty>, AllocError>
    ensures { IfOk result (λ o. o ≡ ty_of word.now) }
{
    if word == b"bool".as_slice() {
        Ok(Some(Ty::Bool))
    } else if word == b"int".as_slice() {
        Ok(Some(Ty::Int))
    } else {
        match name_of(alloc, word)? {
            None => Ok(None),
            Some(name) => Ok(Some(Ty::Enum(name))),
        }
    }
}

/// The value of an arm.
pub(crate) fn label_of(alloc: Global, word: &[u8]) -> Result<Option<Const>, AllocError>
    ensures { IfOk result (λ o. o ≡ label_of word.now) }
{
    if word == b"true".as_slice() {
        Ok(Some(Const::B(true)))
    } else if word == b"false".as_slice() {
        Ok(Some(Const::B(false)))
    } else {
        match constructor_of(alloc, word)? {
            None => Ok(None),
            Some(name) => Ok(Some(Const::E(name))),
        }
    }
}

pub(crate) fn const_of(alloc: Global, word: &[u8]) -> Result<Option<Const>, AllocError>
    ensures { IfOk result (λ o. o ≡ const_of word.now) }
{
    match label_of(alloc, word)? {
        Some(label) => Ok(Some(label)),
        None => match read_int(word) {
            Some(n) => Ok(Some(Const::I(n))),
            None => Ok(None),
        },
    }
}

pub(crate) fn arg_of(alloc: Global, word: &[u8]) -> Result<Option<Arg>, AllocError>
    ensures { IfOk result (λ o. o ≡ arg_of word.now) }
{
    match name_of(alloc, word)? {
        Some(name) => Ok(Some(Arg::Name(name))),
        None => match const_of(alloc, word)? {
            Some(constant) => Ok(Some(Arg::Const(constant))),
            None => Ok(None),
        },
    }
}

/// The operator of a word with `@`.
pub(crate) fn op_of(word: &[u8]) -> Option<ObcOp>
    ensures { result ≡ op_of word.now }
{
    if word == b"@not".as_slice() {
        Some(ObcOp::Not)
    } else if word == b"@neg".as_slice() {
        Some(ObcOp::Neg)
    } else if word == b"@mux".as_slice() {
        Some(ObcOp::Mux)
    } else if word == b"@and".as_slice() {
        Some(ObcOp::And)
    } else if word == b"@or".as_slice() {
        Some(ObcOp::Or)
    } else if word == b"@xor".as_slice() {
        Some(ObcOp::Xor)
    } else if word == b"@imp".as_slice() {
        Some(ObcOp::Imp)
    } else {
        comparison_of(word)
    }
}

/// The comparison, or the arithmetic operator, of a word.
fn comparison_of(word: &[u8]) -> Option<ObcOp>
    ensures { result ≡ comparison_of word.now }
{
    if word == b"@eq".as_slice() {
        Some(ObcOp::Eq)
    } else if word == b"@ne".as_slice() {
        Some(ObcOp::Ne)
    } else if word == b"@lt".as_slice() {
        Some(ObcOp::Lt)
    } else if word == b"@le".as_slice() {
        Some(ObcOp::Le)
    } else if word == b"@gt".as_slice() {
        Some(ObcOp::Gt)
    } else if word == b"@ge".as_slice() {
        Some(ObcOp::Ge)
    } else {
        arithmetic_of(word)
    }
}

/// The arithmetic operator of a word.
fn arithmetic_of(word: &[u8]) -> Option<ObcOp>
    ensures { result ≡ arithmetic_of word.now }
{
    if word == b"@add".as_slice() {
        Some(ObcOp::Add)
    } else if word == b"@sub".as_slice() {
        Some(ObcOp::Sub)
    } else if word == b"@mul".as_slice() {
        Some(ObcOp::Mul)
    } else if word == b"@div".as_slice() {
        Some(ObcOp::Div)
    } else if word == b"@rem".as_slice() {
        Some(ObcOp::Rem)
    } else {
        None
    }
}
