//! The lines of diagnostics that name why a text is refused.
ghost use Rattle.std.specs.Prelude.{◌≡◌, ◌≢◌, ◌++◌, codes, decimal, option_map, IfOk, OnOk};
ghost use Rattle.hp_base.specs.Limits.{most, word};
ghost use Rattle.hp_verdicts.specs.declared.error.ContractErr.TheVariants as contract;
ghost use Rattle.hp_driver.specs.Diagnostics.{place_text, where_text, is_text, heading, fault_text, name_line, type_line, counts_text, passed_line, most_executed, executor_line, shape_word, shape_line, count_line, expand_line, unit_line, clock_line, init_line, source_name, point_text, points_text, cause_line, refusal_line, too_long_line, behind_forced, forced_line, contract_line, no_contract_line, misfit_text, condition_text, certificate_line, checkpoint_line};

use hp_base::{Limit, Span, What};
use hp_cause::CauseErr;
use hp_cert::certtext::{CertErr, Cond, Misfit};
use hp_clocks::ClockErr;
use hp_compile::{Place, Refusal};
use hp_exec::{MAX_CALLS, MAX_INSTANCES};
use hp_expand::{ExpandErr, Shape};
use hp_init::InitErr;
use hp_meaning::causal::Point;
use hp_names::NameErr;
use hp_obctext::MemErr;
use hp_typing::{Is, TypeErr};
use hp_verdicts::ContractErr;
use itoa::Buffer;
use std::alloc::{AllocError, Global};

/// Writes a number behind what a line holds.
fn add_number(line: &mut Vec<u8>, number: u64) -> Result<(), AllocError>
    ensures { OnOk result (line.new.items ≡ line.old.items ++ decimal number) }
{
    let mut digits = Buffer::new();
    line.extend_from_slice(digits.format(number).as_bytes())?;
    Ok(())
}

/// Writes LINE:COL.
fn add_place(line: &mut Vec<u8>, at: Span) -> Result<(), AllocError>
    ensures { OnOk result (line.new.items ≡ line.old.items ++ place_text at) }
{
    add_number(line, at.line as u64)?;
    line.extend_from_slice(b":")?;
    add_number(line, at.col as u64)
}

/// Writes where a limit is passed.
fn add_where(line: &mut Vec<u8>, place: Place) -> Result<(), AllocError>
    ensures { OnOk result (line.new.items ≡ line.old.items ++ where_text place) }
{
    match place {
        Place::Whole => {
            line.extend_from_slice(b"-")?;
            Ok(())
        }
        Place::At(span) => add_place(line, span),
    }
}

/// Writes a type, or so many values.
fn add_is(line: &mut Vec<u8>, is: &Is) -> Result<(), AllocError>
    ensures { OnOk result (line.new.items ≡ line.old.items ++ is_text is.now) }
{
    match is {
        Is::Bool => line.extend_from_slice(b"bool")?,
        Is::Int => line.extend_from_slice(b"int")?,
        Is::Enum(name) => line.extend_from_slice(name.bytes())?,
        Is::Row(count) => {
            line.extend_from_slice(b"row:")?;
            add_number(line, *count)?;
        }
    }
    Ok(())
}

/// Writes the code of a line and the place that it names.
fn add_heading(line: &mut Vec<u8>, code: &[u8], at: Span) -> Result<(), AllocError>
    ensures { OnOk result (line.new.items ≡ line.old.items ++ heading code.now at) }
{
    line.extend_from_slice(code)?;
    line.extend_from_slice(b" ")?;
    add_place(line, at)?;
    line.extend_from_slice(b" ")?;
    Ok(())
}

/// Writes the line of a name, with a word for what is wrong.
fn add_fault(
    line: &mut Vec<u8>,
    code: &[u8],
    at: Span,
    name: &[u8],
    word: &[u8],
) -> Result<(), AllocError>
    ensures { OnOk result (line.new.items ≡ line.old.items ++ fault_text code.now at name.now word.now) }
{
    add_heading(line, code, at)?;
    line.extend_from_slice(name)?;
    line.extend_from_slice(b" ")?;
    line.extend_from_slice(word)?;
    line.extend_from_slice(b"\n")?;
    Ok(())
}

fn add_name_line(line: &mut Vec<u8>, error: &NameErr) -> Result<(), AllocError>
    ensures { OnOk result (line.new.items ≡ line.old.items ++ name_line error.now) }
{
    match error {
        NameErr::Unknown { name, span } => {
            add_fault(line, b"E4", *span, name.bytes(), b"unknown")
        }
        NameErr::Twice { name, span } => add_fault(line, b"E4", *span, name.bytes(), b"twice"),
        NameErr::OutOfMemory => Ok(()),
    }
}

/// Writes what type is wanted at a place, and what is found there.
fn add_wrong(line: &mut Vec<u8>, at: Span, wanted: &Is, found: &Is) -> Result<(), AllocError>
    ensures { OnOk result (line.new.items ≡ line.old.items ++ fault_text (codes "E5") at (is_text wanted.now) (is_text found.now)) }
{
    add_heading(line, b"E5", at)?;
    add_is(line, wanted)?;
    line.extend_from_slice(b" ")?;
    add_is(line, found)?;
    line.extend_from_slice(b"\n")?;
    Ok(())
}

fn add_type_line(line: &mut Vec<u8>, error: &TypeErr) -> Result<(), AllocError>
    ensures { OnOk result (line.new.items ≡ line.old.items ++ type_line error.now) }
{
    match error {
        TypeErr::Wrong {
            span,
            wanted,
            found,
        } => add_wrong(line, *span, wanted, found),
        TypeErr::Undefined { name, span } => {
            add_fault(line, b"E6", *span, name.bytes(), b"undefined")
        }
        TypeErr::Twice { name, span } => add_fault(line, b"E6", *span, name.bytes(), b"twice"),
        TypeErr::Branch { name, span } => add_fault(line, b"E6", *span, name.bytes(), b"branch"),
        TypeErr::OutOfMemory => Ok(()),
    }
}

/// Writes what was found and the most that there may be.
fn add_counts(line: &mut Vec<u8>, found: u64, most: u64) -> Result<(), AllocError>
    ensures { OnOk result (line.new.items ≡ line.old.items ++ counts_text found most) }
{
    add_number(line, found)?;
    line.extend_from_slice(b" ")?;
    add_number(line, most)?;
    line.extend_from_slice(b"\n")?;
    Ok(())
}

/// Writes where more is found than there may be.
fn add_passed_line(
    line: &mut Vec<u8>,
    place: Place,
    limit: Limit,
    most: u64,
) -> Result<(), AllocError>
    ensures { OnOk result (line.new.items ≡ line.old.items ++ passed_line place limit.what limit.found most) }
{
    line.extend_from_slice(b"E3 ")?;
    add_where(line, place)?;
    line.extend_from_slice(b" ")?;
    line.extend_from_slice(limit.what.word().as_bytes())?;
    line.extend_from_slice(b" ")?;
    add_counts(line, limit.found, most)
}

/// The word for a shape that is broken.
fn shape_word(shape: Shape) -> &'static str
    ensures { result.now ≡ shape_word shape }
{
    match shape {
        Shape::Call => "call",
        Shape::Inline => "inline",
        Shape::WrongType => "type",
    }
}

/// Writes what is wrong with a contract at a place in a node.
fn add_shape_line(line: &mut Vec<u8>, node: &[u8], at: Span, wrong: &[u8]) -> Result<(), AllocError>
    ensures { OnOk result (line.new.items ≡ line.old.items ++ shape_line node.now at wrong.now) }
{
    line.extend_from_slice(b"E10 ")?;
    line.extend_from_slice(node)?;
    line.extend_from_slice(b" ")?;
    add_place(line, at)?;
    line.extend_from_slice(b" ")?;
    line.extend_from_slice(wrong)?;
    line.extend_from_slice(b"\n")?;
    Ok(())
}

/// Writes a limit that a node passes.
fn add_count_line(line: &mut Vec<u8>, node: &[u8], limit: Limit) -> Result<(), AllocError>
    ensures { OnOk result (line.new.items ≡ line.old.items ++ count_line node.now limit) }
{
    line.extend_from_slice(b"E3 ")?;
    line.extend_from_slice(node)?;
    line.extend_from_slice(b" ")?;
    line.extend_from_slice(limit.what.word().as_bytes())?;
    line.extend_from_slice(b" ")?;
    add_counts(line, limit.found, limit.what.most())
}

fn add_expand_line(line: &mut Vec<u8>, error: &ExpandErr) -> Result<(), AllocError>
    ensures { OnOk result (line.new.items ≡ line.old.items ++ expand_line error.now) }
{
    match error {
        ExpandErr::Shape { node, span, shape } => add_shape_line(
            line,
            node.bytes(),
            *span,
            shape_word(*shape).as_bytes(),
        ),
        ExpandErr::Limit { node, limit } => add_count_line(line, node.bytes(), *limit),
        ExpandErr::OutOfMemory => Ok(()),
    }
}

/// Writes a code, a node and a place in it.
fn add_unit_line(line: &mut Vec<u8>, code: &[u8], node: &[u8], at: Span) -> Result<(), AllocError>
    ensures { OnOk result (line.new.items ≡ line.old.items ++ unit_line code.now node.now at) }
{
    line.extend_from_slice(code)?;
    line.extend_from_slice(node)?;
    line.extend_from_slice(b" ")?;
    add_place(line, at)?;
    line.extend_from_slice(b"\n")?;
    Ok(())
}

fn add_clock_line(line: &mut Vec<u8>, error: &ClockErr) -> Result<(), AllocError>
    ensures { OnOk result (line.new.items ≡ line.old.items ++ clock_line error.now) }
{
    match error {
        ClockErr::Clash { node, span } => add_unit_line(line, b"E7 ", node.bytes(), *span),
        ClockErr::Limit { node, limit } => add_count_line(line, node.bytes(), *limit),
        ClockErr::OutOfMemory => Ok(()),
    }
}

fn add_init_line(line: &mut Vec<u8>, error: &InitErr) -> Result<(), AllocError>
    ensures { OnOk result (line.new.items ≡ line.old.items ++ init_line error.now) }
{
    match error {
        InitErr::Late { node, span } => add_unit_line(line, b"E8 ", node.bytes(), *span),
        InitErr::OutOfMemory => Ok(()),
    }
}

/// The name that a variable has in the text: the part before the sign in the names of new variables.
fn source_name(name: &[u8]) -> &[u8]
    ensures { result.now ≡ source_name name.now }
{
    for i in 0..name.len() {
        if name[i] == b'$' {
            return &name[..i];
        }
    }
    name
}

/// Writes a point of a cycle.
fn add_point(line: &mut Vec<u8>, point: &Point) -> Result<(), AllocError>
    ensures { OnOk result (line.new.items ≡ line.old.items ++ point_text point.now) }
{
    line.extend_from_slice(b" ")?;
    line.extend_from_slice(source_name(point.name.bytes()))?;
    line.extend_from_slice(b"@")?;
    add_place(line, point.span)
}

/// Writes the points of a cycle.
fn add_points(line: &mut Vec<u8>, points: &[Point]) -> Result<(), AllocError>
    ensures { OnOk result (line.new.items ≡ line.old.items ++ points_text points.now) }
{
    for point in points {
        add_point(line, point)?;
    }
    Ok(())
}

/// Writes the line of a cycle in a node.
fn add_cycle_line(line: &mut Vec<u8>, node: &[u8], points: &[Point]) -> Result<(), AllocError>
    ensures { OnOk result (line.new.items ≡ line.old.items ++ (codes "E9 " ++ (node.now ++ (points_text points.now ++ codes "\n")))) }
{
    line.extend_from_slice(b"E9 ")?;
    line.extend_from_slice(node)?;
    add_points(line, points)?;
    line.extend_from_slice(b"\n")?;
    Ok(())
}

fn add_cause_line(line: &mut Vec<u8>, error: &CauseErr) -> Result<(), AllocError>
    ensures { OnOk result (line.new.items ≡ line.old.items ++ cause_line error.now) }
{
    match error {
        CauseErr::Cycle { node, points } => add_cycle_line(line, node.bytes(), points.as_slice()),
        CauseErr::OutOfMemory => Ok(()),
    }
}

/// Writes that a text has more bytes than it may have.
fn add_too_long_line(line: &mut Vec<u8>, what: What) -> Result<(), AllocError>
    ensures { OnOk result (line.new.items ≡ line.old.items ++ too_long_line what) }
{
    let most = what.most();
    let found = most + 1;
    add_passed_line(line, Place::Whole, Limit { what, found }, most)
}

/// Writes the certificate of a contract that is lost, or that its text would be too long.
fn add_behind_forced(line: &mut Vec<u8>, cert: &Option<Vec<u8>>) -> Result<(), AllocError>
    ensures { OnOk result (line.new.items ≡ line.old.items ++ behind_forced (option_map (λ text. text.items) cert.now)) }
{
    match cert {
        None => add_too_long_line(line, What::Text),
        Some(cert) => {
            line.extend_from_slice(cert)?;
            Ok(())
        }
    }
}

/// Writes that a violation is forced in a node, and behind the line the certificate of it.
fn add_forced_line(
    line: &mut Vec<u8>,
    node: &[u8],
    instants: u64,
    cert: &Option<Vec<u8>>,
) -> Result<(), AllocError>
    ensures { OnOk result (line.new.items ≡ line.old.items ++ forced_line node.now instants (behind_forced (option_map (λ text. text.items) cert.now))) }
{
    line.extend_from_slice(b"E11 ")?;
    line.extend_from_slice(node)?;
    line.extend_from_slice(b" ")?;
    add_number(line, instants)?;
    line.extend_from_slice(b"\n")?;
    add_behind_forced(line, cert)
}

fn add_contract_line(line: &mut Vec<u8>, error: &ContractErr) -> Result<(), AllocError>
    requires { error.now ≢ contract.NotBuilt }
    ensures { OnOk result (line.new.items ≡ line.old.items ++ contract_line error.now) }
{
    match error {
        ContractErr::Assume { node, span } => add_shape_line(line, node.bytes(), *span, b"assume"),
        ContractErr::Limit { node, limit } => add_count_line(line, node.bytes(), *limit),
        ContractErr::Forced {
            node,
            instants,
            cert,
        } => add_forced_line(line, node.bytes(), *instants, cert),
        ContractErr::TooLong => add_too_long_line(line, What::Text),
        ContractErr::NotBuilt => unreachable!(),
        ContractErr::OutOfMemory => Ok(()),
    }
}

/// The line of a contract that is refused. Want of memory has none.
pub(crate) fn contract_line(alloc: Global, error: &ContractErr) -> Result<Vec<u8>, AllocError>
    requires { error.now ≢ contract.NotBuilt }
    ensures { IfOk result (λ line. line.items ≡ contract_line error.now) }
{
    let mut line = Vec::new(alloc);
    add_contract_line(&mut line, error)?;
    Ok(line)
}

/// The line of a node that has no contract.
pub(crate) fn no_contract_line(alloc: Global, node: &[u8], at: Span) -> Result<Vec<u8>, AllocError>
    ensures { IfOk result (λ line. line.items ≡ no_contract_line node.now at) }
{
    let mut line = Vec::new(alloc);
    add_shape_line(&mut line, node, at, b"none")?;
    Ok(line)
}

/// The word for what of a certificate is not that of the node.
fn misfit_word(misfit: Misfit) -> &'static str
    ensures { result.now ≡ misfit_text misfit }
{
    match misfit {
        Misfit::Node => "node",
        Misfit::Vars => "vars",
        Misfit::Count => "count",
        Misfit::Scope => "scope",
    }
}

/// Writes the condition of a certificate that fails.
fn add_condition(line: &mut Vec<u8>, condition: Cond) -> Result<(), AllocError>
    ensures { OnOk result (line.new.items ≡ line.old.items ++ condition_text condition) }
{
    match condition {
        Cond::Init => line.extend_from_slice(b"init")?,
        Cond::Step => line.extend_from_slice(b"step")?,
        Cond::Rank(number) => {
            line.extend_from_slice(b"rank ")?;
            add_number(line, number)?;
        }
    }
    Ok(())
}

/// Writes that a certificate is not one of the node.
fn add_misfit_line(line: &mut Vec<u8>, misfit: Misfit) -> Result<(), AllocError>
    ensures { OnOk result (line.new.items ≡ line.old.items ++ (codes "K2 " ++ (misfit_text misfit ++ codes "\n"))) }
{
    line.extend_from_slice(b"K2 ")?;
    line.extend_from_slice(misfit_word(misfit).as_bytes())?;
    line.extend_from_slice(b"\n")?;
    Ok(())
}

/// Writes that a condition of a certificate fails.
fn add_condition_line(line: &mut Vec<u8>, condition: Cond) -> Result<(), AllocError>
    ensures { OnOk result (line.new.items ≡ line.old.items ++ (codes "K3 " ++ (condition_text condition ++ codes "\n"))) }
{
    line.extend_from_slice(b"K3 ")?;
    add_condition(line, condition)?;
    line.extend_from_slice(b"\n")?;
    Ok(())
}

/// The line of a certificate that is refused. Want of memory has none.
pub(crate) fn certificate_line(alloc: Global, error: &CertErr) -> Result<Vec<u8>, AllocError>
    ensures { IfOk result (λ line. line.items ≡ certificate_line error.now) }
{
    let mut line = Vec::new(alloc);
    match error {
        CertErr::Syntax { span } => add_place_line(&mut line, b"K1 ", *span)?,
        CertErr::Misfit(misfit) => add_misfit_line(&mut line, *misfit)?,
        CertErr::Fails(condition) => add_condition_line(&mut line, *condition)?,
        CertErr::Limit(limit) => {
            add_passed_line(&mut line, Place::Whole, *limit, limit.what.most())?
        }
        CertErr::OutOfMemory => {}
    }
    Ok(line)
}

/// Writes a code and a place.
fn add_place_line(line: &mut Vec<u8>, code: &[u8], at: Span) -> Result<(), AllocError>
    ensures { OnOk result (line.new.items ≡ line.old.items ++ (code.now ++ (place_text at ++ codes "\n"))) }
{
    line.extend_from_slice(code)?;
    add_place(line, at)?;
    line.extend_from_slice(b"\n")?;
    Ok(())
}

/// The line of a code and a place.
pub(crate) fn place_line(alloc: Global, code: &[u8], at: Span) -> Result<Vec<u8>, AllocError>
    ensures { IfOk result (λ line. line.items ≡ code.now ++ (place_text at ++ codes "\n")) }
{
    let mut line = Vec::new(alloc);
    add_place_line(&mut line, code, at)?;
    Ok(line)
}

/// Writes a code and a number.
fn add_number_line(line: &mut Vec<u8>, code: &[u8], number: u64) -> Result<(), AllocError>
    ensures { OnOk result (line.new.items ≡ line.old.items ++ (code.now ++ (decimal number ++ codes "\n"))) }
{
    line.extend_from_slice(code)?;
    add_number(line, number)?;
    line.extend_from_slice(b"\n")?;
    Ok(())
}

/// The line of a checkpoint that is refused.
pub(crate) fn checkpoint_line(alloc: Global, error: MemErr) -> Result<Vec<u8>, AllocError>
    ensures { IfOk result (λ line. line.items ≡ checkpoint_line error) }
{
    let mut line = Vec::new(alloc);
    match error {
        MemErr::Syntax { span } => add_place_line(&mut line, b"M1 ", span)?,
        MemErr::Node => line.extend_from_slice(b"M2 node\n")?,
        MemErr::Count { found } => add_number_line(&mut line, b"M2 count ", found)?,
        MemErr::Word { number } => add_number_line(&mut line, b"M2 value ", number)?,
    }
    Ok(line)
}

/// The most that there may be of what is counted in a machine that is executed.
fn most_executed(what: What) -> u64
    ensures { result ≡ most_executed what }
{
    match what {
        What::Calls => MAX_CALLS,
        _ => MAX_INSTANCES,
    }
}

/// The line of a limit that a machine passes.
pub(crate) fn executor_line(alloc: Global, limit: Limit) -> Result<Vec<u8>, AllocError>
    ensures { IfOk result (λ line. line.items ≡ executor_line limit) }
{
    let mut line = Vec::new(alloc);
    add_passed_line(&mut line, Place::Whole, limit, most_executed(limit.what))?;
    Ok(line)
}

/// The line of a refusal. Want of memory has none.
pub(crate) fn refusal_line(alloc: Global, refusal: &Refusal) -> Result<Vec<u8>, AllocError>
    ensures { IfOk result (λ line. line.items ≡ refusal_line refusal.now) }
{
    let mut line = Vec::new(alloc);
    match refusal {
        Refusal::Limit { place, limit } => {
            add_passed_line(&mut line, *place, *limit, limit.what.most())?
        }
        Refusal::Lex { span } => add_place_line(&mut line, b"E1 ", *span)?,
        Refusal::Parse { span } => add_place_line(&mut line, b"E2 ", *span)?,
        Refusal::Name(error) => add_name_line(&mut line, error)?,
        Refusal::Types(error) => add_type_line(&mut line, error)?,
        Refusal::Expand(error) => add_expand_line(&mut line, error)?,
        Refusal::Clocks(error) => add_clock_line(&mut line, error)?,
        Refusal::Init(error) => add_init_line(&mut line, error)?,
        Refusal::Cause(error) => add_cause_line(&mut line, error)?,
        Refusal::OutOfMemory => {}
    }
    Ok(line)
}
