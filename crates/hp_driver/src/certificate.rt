//! The commands over the contract of one node: `prove`, which writes a certificate, and `verify`, which checks one.
ghost use Rattle.std.specs.Prelude.{◌≡◌, ◌≢◌, ◌⊎◌, ◌++◌, ℕ, List, [], None, Some, codes, decimal, is_some, IfOk, IfErr, IsTrue, MatchOption};
ghost use Rattle.hp_io.specs.Events.{put_events};
ghost use Rattle.hp_io.specs.Faults.{Same, AllSame};
ghost use Rattle.hp_io.specs.Reads.{NothingRead};
ghost use Rattle.hp_io.specs.Told.{Grows};
ghost use Rattle.hp_compile.specs.Refusals.{IsRefused};
ghost use Rattle.hp_compile.specs.declared.refusal.Refusal.TheVariants as refusal;
ghost use Rattle.hp_tree.specs.Meaning.{node_among};
ghost use Rattle.hp_cert.specs.declared.certtext.error.CertErr.TheVariants as certificate;
ghost use Rattle.hp_verdicts.specs.Verified.{HasMachine};
ghost use Rattle.hp_driver.specs.Command.{IsProveOf, IsVerifyOf, verdict_text};
ghost use Rattle.hp_driver.specs.Diagnostics.{no_contract_line, certificate_line, certificate_status};
ghost use Rattle.hp_driver.specs.Follows.{Accepts, IsArrangedText, IsNodeOfText, IsOrdered, TextOutcome, NodeOutcome, ContractOutcome, MachineOutcome, CertOutcome};
ghost use Rattle.hp_driver.specs.Leaving.{TextLeaves, NodeLeaves, ContractLeaves};
ghost use Rattle.hp_driver.specs.Found.{node_in};
ghost use Rattle.hp_driver.specs.Outcome.{HasNoProgram};
ghost use Rattle.hp_driver.specs.Ran.{ReportsOrNot};
ghost use Rattle.hp_driver.specs.Readings.{NodeHasMachine, TextHasMachine};
ghost use Rattle.hp_driver.specs.Faults.{PutFaults, BothPutFaults, ReadFaults, WriteOrPutFaults};
ghost use Rattle.hp_driver.specs.Happened.{Happened};
ghost use Rattle.hp_driver.specs.Status.{code_of};

use crate::diagnostic::{certificate_line, no_contract_line};
use crate::refuse::{report_contract, report_no_node, report_refusal, report_too_long};
use crate::report::report;
use crate::source::{say_all, write_text};
use crate::status::Status;
use hp_base::{Span, What};
use hp_boolx::BoolMachine;
use hp_cause::Ordered;
use hp_cert::certtext::CertErr;
use hp_compile::{Refusal, front};
use hp_io::{Console, Folder, ReadErr, Sink};
use hp_tree::{Item, Node, Program};
use hp_verdicts::{Proved, machine_of, prove, verify};
use itoa::Buffer;
use law_decided::outcomes_are_so;
use std::alloc::{AllocError, Global};

/// The program of a text, arranged and ordered, or why it has none.
fn ordered_of(alloc: Global, text: &[u8]) -> Result<Ordered, Refusal>
    ensures ordered { IfOk result (λ o. IsOrdered text.now o.program) }
    ensures refused { IfErr result (IsRefused text.now) }
    ensures none { IfErr result (λ e. e ≢ refusal.OutOfMemory → HasNoProgram text.now) }
{
    match front(alloc, text) {
        Ok(ordered) => Ok(ordered),
        Err(refusal) => Err(refusal),
    }
}

/// The node of an item, if it has this name.
fn node_in<'a>(item: &'a Item, name: &str) -> Option<&'a Node>
    ensures { MatchOption result (node_in item.entry.now name.now ≡ None) (λ node. node_in item.entry.now name.now ≡ Some node.now) }
{
    match item {
        Item::TypeItem(_) => None,
        Item::NodeItem(node) => {
            if node.name.bytes() == name.as_bytes() {
                Some(node)
            } else {
                None
            }
        }
    }
}

/// The node of this name.
pub(crate) fn node_named<'a>(program: &'a Program, name: &str) -> Option<&'a Node>
    ensures { MatchOption result (node_among program.entry.now name.now ≡ None) (λ node. node_among program.entry.now name.now ≡ Some node.now) }
{
    for item in &program.items {
        if let Some(node) = node_in(item, name) {
            return Some(node);
        }
    }
    None
}

/// Reports that the node of this name, which stands at the place, has no contract.
fn report_no_contract<E: Sink>(alloc: Global, diag: &mut E, node: &str, at: Span) -> Status
    ensures reports { ReportsOrNot (E.took diag.old) (E.took diag.new) (no_contract_line node.now at) 1 (code_of result) }
    ensures faults { PutFaults (code_of result) (E.faults diag.old) (E.faults diag.new) }
{
    match no_contract_line(alloc, node.as_bytes(), at) {
        Ok(line) => report(diag, line.as_slice(), Status::Refused),
        Err(_) => Status::NoMemory,
    }
}

// ---- `prove`

/// Writes the certificate of the machine of a node's contract to a file.
fn prove_contract<F: Folder, E: Sink>(
    alloc: Global,
    ordered: &Program,
    node: &Node,
    cert: &str,
    files: &mut F,
    diag: &mut E,
) -> Status
    requires { IsTrue (is_some node.now.contract) × IsNodeOfText ordered.now node.now }
    ensures outcome { (line : List ℕ) × Grows (E.took diag.old) (E.took diag.new) line
        × ContractOutcome (F.files files.old) (λ words file name. IsProveOf words file name cert.now) ordered.now node.now [] line (code_of result) }
    ensures leaves { ContractLeaves cert.now ordered.now node.now (F.files files.old) (F.files files.new) (code_of result) }
    ensures status { code_of result ≢ 4 }
    ensures reads { NothingRead (F.reads files.old) (F.reads files.new) }
    ensures writes { WriteOrPutFaults cert.now (code_of result) (F.write_faults files.old) (F.write_faults files.new) (E.faults diag.old) (E.faults diag.new) }
{
    // A law: what is found of contracts says so of their games.
    outcomes_are_so();
    match prove(alloc, ordered, node) {
        Ok(text) => write_text(text.as_slice(), cert, files),
        Err(error) => report_contract(alloc, diag, &error),
    }
}

/// Writes the certificate of the contract of the node of this name to a file.
fn prove_node<F: Folder, E: Sink>(
    alloc: Global,
    ordered: &Program,
    name: &str,
    cert: &str,
    files: &mut F,
    diag: &mut E,
) -> Status
    requires { (program : List Item) × IsArrangedText program ordered.now }
    ensures outcome { (line : List ℕ) × Grows (E.took diag.old) (E.took diag.new) line
        × NodeOutcome (F.files files.old) (λ words file. IsProveOf words file name.now cert.now) ordered.now [] line (code_of result) }
    ensures leaves { NodeLeaves name.now cert.now ordered.now (F.files files.old) (F.files files.new) (code_of result) }
    ensures status { code_of result ≢ 4 }
    ensures reads { NothingRead (F.reads files.old) (F.reads files.new) }
    ensures writes { WriteOrPutFaults cert.now (code_of result) (F.write_faults files.old) (F.write_faults files.new) (E.faults diag.old) (E.faults diag.new) }
{
    let Some(node) = node_named(ordered, name) else {
        return report_no_node(alloc, diag, name);
    };
    if node.contract.is_none() {
        return report_no_contract(alloc, diag, name, node.span);
    }
    prove_contract(alloc, ordered, node, cert, files, diag)
}

/// Writes the certificate of the contract of the node of this name, in the source text that was read, to a file.
pub(crate) fn run_prove<F: Folder, E: Sink>(
    alloc: Global,
    text: &[u8],
    name: &str,
    cert: &str,
    files: &mut F,
    diag: &mut E,
) -> Status
    ensures outcome { (line : List ℕ) × Grows (E.took diag.old) (E.took diag.new) line
        × TextOutcome (F.files files.old) (λ words file. IsProveOf words file name.now cert.now) text.now [] line (code_of result) }
    ensures leaves { TextLeaves name.now cert.now text.now (F.files files.old) (F.files files.new) (code_of result) }
    ensures status { code_of result ≢ 4 }
    ensures reads { NothingRead (F.reads files.old) (F.reads files.new) }
    ensures writes { WriteOrPutFaults cert.now (code_of result) (F.write_faults files.old) (F.write_faults files.new) (E.faults diag.old) (E.faults diag.new) }
{
    match ordered_of(alloc, text) {
        Ok(ordered) => prove_node(alloc, &ordered.program, name, cert, files, diag),
        Err(refusal) => report_refusal(alloc, diag, &refusal),
    }
}

// ---- `verify`

/// The status of a certificate that is refused, or whose text is too long.
fn certificate_status(error: &CertErr) -> Status
    ensures { code_of result ≡ certificate_status error.now }
{
    match error {
        CertErr::Limit(_) => Status::Refused,
        _ => Status::NoCertificate,
    }
}

/// Reports why a certificate is refused, or that there is no memory.
fn report_certificate<E: Sink>(alloc: Global, diag: &mut E, error: &CertErr) -> Status
    ensures reports { ReportsOrNot (E.took diag.old) (E.took diag.new) (certificate_line error.now) (certificate_status error.now) (code_of result) }
    ensures no_memory { error.now ≡ certificate.OutOfMemory → (code_of result ≡ 6) × Grows (E.took diag.old) (E.took diag.new) [] }
    ensures faults { PutFaults (code_of result) (E.faults diag.old) (E.faults diag.new) }
{
    if let CertErr::OutOfMemory = error {
        return Status::NoMemory;
    }
    match certificate_line(alloc, error) {
        Ok(line) => report(diag, line.as_slice(), certificate_status(error)),
        Err(_) => Status::NoMemory,
    }
}

/// Writes that a violation is forced within so many instants.
fn lost(alloc: Global, instants: u64) -> Result<Vec<u8>, AllocError>
    ensures { IfOk result (λ text. text.items ≡ codes "lose " ++ (decimal instants ++ codes "\n")) }
{
    let mut digits = Buffer::new();
    let mut text = Vec::from_slice(alloc, b"lose ")?;
    text.extend_from_slice(digits.format(instants).as_bytes())?;
    text.extend_from_slice(b"\n")?;
    Ok(text)
}

/// What a certificate proves, in words.
fn verdict(alloc: Global, proved: Proved) -> Result<Vec<u8>, AllocError>
    ensures { IfOk result (λ text. text.items ≡ verdict_text proved) }
{
    match proved {
        Proved::Win => Vec::from_slice(alloc, b"win\n"),
        Proved::Lose { instants } => lost(alloc, instants),
    }
}

/// Says what a certificate proves.
fn say_verdict<C: Console>(alloc: Global, proved: Proved, console: &mut C) -> Status
    ensures accepts { (out : List ℕ) × Grows (C.events console.old) (C.events console.new) (put_events out) × Accepts (verdict_text proved) out (code_of result) }
    ensures status { code_of result ≢ 4 }
    ensures left { C.left console.new ≡ C.left console.old }
    ensures puts { PutFaults (code_of result) (C.put_faults console.old) (C.put_faults console.new) }
    ensures takes { Same (C.take_faults console.old) (C.take_faults console.new) }
{
    match verdict(alloc, proved) {
        Ok(text) => say_all(console, text.as_slice()),
        Err(_) => Status::NoMemory,
    }
}

/// Says what the text of a certificate proves of the machine of a contract.
fn verify_text<C: Console, E: Sink>(
    alloc: Global,
    m: &BoolMachine,
    text: &[u8],
    console: &mut C,
    diag: &mut E,
) -> Status
    ensures outcome { Happened (C.events console.old) (C.events console.new) (C.left console.old) (C.left console.new) (E.took diag.old) (E.took diag.new)
        (λ log line. CertOutcome m.now text.now log line (code_of result)) }
    ensures status { code_of result ≢ 4 }
    ensures takes { Same (C.take_faults console.old) (C.take_faults console.new) }
    ensures puts { BothPutFaults (code_of result) (C.put_faults console.old) (C.put_faults console.new) (E.faults diag.old) (E.faults diag.new) }
{
    // A law: what is found of contracts says so of their games.
    outcomes_are_so();
    match verify(alloc, m, text) {
        Ok(proved) => say_verdict(alloc, proved, console),
        Err(error) => report_certificate(alloc, diag, &error),
    }
}

/// Says what the certificate in a file proves of the machine of a contract.
fn verify_file<F: Folder, C: Console, E: Sink>(
    alloc: Global,
    m: &BoolMachine,
    cert: &str,
    files: &mut F,
    console: &mut C,
    diag: &mut E,
) -> Status
    ensures outcome { Happened (C.events console.old) (C.events console.new) (C.left console.old) (C.left console.new) (E.took diag.old) (E.took diag.new)
        (λ log line. MachineOutcome (F.files files.old) cert.now m.now log line (code_of result)) }
    ensures files { F.files files.new ≡ F.files files.old }
    ensures reads { ReadFaults cert.now (code_of result) (F.reads files.old) (F.reads files.new) }
    ensures writes { AllSame (F.write_faults files.old) (F.write_faults files.new) }
    ensures takes { Same (C.take_faults console.old) (C.take_faults console.new) }
    ensures puts { BothPutFaults (code_of result) (C.put_faults console.old) (C.put_faults console.new) (E.faults diag.old) (E.faults diag.new) }
{
    let mut text = Vec::new(alloc);
    match files.read(cert, What::Text.most() as usize, &mut text) {
        Ok(()) => verify_text(alloc, m, text.as_slice(), console, diag),
        Err(ReadErr::Failed) => Status::ReadFailed,
        Err(ReadErr::TooLong { .. }) => report_too_long(alloc, diag, What::Text),
        Err(ReadErr::OutOfMemory) => Status::NoMemory,
    }
}

/// Says what the certificate in a file proves of a node's contract. The file is read once the contract has a machine.
fn verify_contract<F: Folder, C: Console, E: Sink>(
    alloc: Global,
    ordered: &Program,
    node: &Node,
    cert: &str,
    files: &mut F,
    console: &mut C,
    diag: &mut E,
) -> Status
    requires { IsTrue (is_some node.now.contract) × IsNodeOfText ordered.now node.now }
    ensures outcome { Happened (C.events console.old) (C.events console.new) (C.left console.old) (C.left console.new) (E.took diag.old) (E.took diag.new)
        (λ log line. ContractOutcome (F.files files.old) (λ words file name. IsVerifyOf words file name cert.now) ordered.now node.now log line (code_of result)) }
    ensures files { F.files files.new ≡ F.files files.old }
    ensures reads { ReadFaults cert.now (code_of result) (F.reads files.old) (F.reads files.new) }
    ensures machine { ((F.reads files.new).gave ≡ (F.reads files.old).gave) ⊎ HasMachine ordered.now node.now }
    ensures writes { AllSame (F.write_faults files.old) (F.write_faults files.new) }
    ensures takes { Same (C.take_faults console.old) (C.take_faults console.new) }
    ensures puts { BothPutFaults (code_of result) (C.put_faults console.old) (C.put_faults console.new) (E.faults diag.old) (E.faults diag.new) }
{
    // A law: what is found of contracts says so of their games.
    outcomes_are_so();
    match machine_of(alloc, ordered, node) {
        Ok(m) => verify_file(alloc, &m, cert, files, console, diag),
        Err(error) => report_contract(alloc, diag, &error),
    }
}

/// Says what the certificate in a file proves of the contract of the node of this name.
fn verify_node<F: Folder, C: Console, E: Sink>(
    alloc: Global,
    ordered: &Program,
    name: &str,
    cert: &str,
    files: &mut F,
    console: &mut C,
    diag: &mut E,
) -> Status
    requires { (program : List Item) × IsArrangedText program ordered.now }
    ensures outcome { Happened (C.events console.old) (C.events console.new) (C.left console.old) (C.left console.new) (E.took diag.old) (E.took diag.new)
        (λ log line. NodeOutcome (F.files files.old) (λ words file. IsVerifyOf words file name.now cert.now) ordered.now log line (code_of result)) }
    ensures files { F.files files.new ≡ F.files files.old }
    ensures reads { ReadFaults cert.now (code_of result) (F.reads files.old) (F.reads files.new) }
    ensures machine { ((F.reads files.new).gave ≡ (F.reads files.old).gave) ⊎ NodeHasMachine ordered.now name.now }
    ensures writes { AllSame (F.write_faults files.old) (F.write_faults files.new) }
    ensures takes { Same (C.take_faults console.old) (C.take_faults console.new) }
    ensures puts { BothPutFaults (code_of result) (C.put_faults console.old) (C.put_faults console.new) (E.faults diag.old) (E.faults diag.new) }
{
    let Some(node) = node_named(ordered, name) else {
        return report_no_node(alloc, diag, name);
    };
    if node.contract.is_none() {
        return report_no_contract(alloc, diag, name, node.span);
    }
    verify_contract(alloc, ordered, node, cert, files, console, diag)
}

/// Says what the certificate in a file proves of the contract of the node of this name, in the source text that was read.
pub(crate) fn run_verify<F: Folder, C: Console, E: Sink>(
    alloc: Global,
    text: &[u8],
    name: &str,
    cert: &str,
    files: &mut F,
    console: &mut C,
    diag: &mut E,
) -> Status
    ensures outcome { Happened (C.events console.old) (C.events console.new) (C.left console.old) (C.left console.new) (E.took diag.old) (E.took diag.new)
        (λ log line. TextOutcome (F.files files.old) (λ words file. IsVerifyOf words file name.now cert.now) text.now log line (code_of result)) }
    ensures files { F.files files.new ≡ F.files files.old }
    ensures reads { ReadFaults cert.now (code_of result) (F.reads files.old) (F.reads files.new) }
    ensures machine { ((F.reads files.new).gave ≡ (F.reads files.old).gave) ⊎ TextHasMachine text.now name.now }
    ensures writes { AllSame (F.write_faults files.old) (F.write_faults files.new) }
    ensures takes { Same (C.take_faults console.old) (C.take_faults console.new) }
    ensures puts { BothPutFaults (code_of result) (C.put_faults console.old) (C.put_faults console.new) (E.faults diag.old) (E.faults diag.new) }
{
    match ordered_of(alloc, text) {
        Ok(ordered) => verify_node(alloc, &ordered.program, name, cert, files, console, diag),
        Err(refusal) => report_refusal(alloc, diag, &refusal),
    }
}
