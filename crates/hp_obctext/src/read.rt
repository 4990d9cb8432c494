//! Texts of machines that are read.
ghost use Rattle.std.specs.Prelude.{◌≡◌, ◌≤◌, ◌<◌, ◌+◌, ◌⊎◌, map, length, IfOk, IfErr};
ghost use Rattle.hp_obc.specs.Form.{HasObcForm};
ghost use Rattle.hp_obctext.specs.Machines.{machine_of, machines_of};
ghost use Rattle.hp_base.specs.Limits.{most};
ghost use Rattle.hp_base.specs.declared.limit.What.TheVariants as what;
ghost use Rattle.hp_base.specs.declared.span.Span as place;
ghost use Rattle.hp_obc.specs.Machines as plain;
ghost use Rattle.hp_obctext.specs.Answers.{IsFileOf, IsTextOf, BreaksForm, Refuses};
ghost use Rattle.hp_obctext.specs.Files as text_file;
ghost use Rattle.hp_obctext.specs.Refusals.{IsRefused};
ghost use Rattle.hp_obctext.specs.Rules.{in_file, IsBreach};
ghost use Rattle.hp_obctext.specs.Texts.{file_seen};

use crate::check_steps::check_file;
use crate::convert::machines_of;
use crate::error::ObcErr;
use crate::found::Found;
use crate::place::{count_words, place_of};
use crate::reader::Reader;
use crate::text::File;
use hp_base::{Limit, What};
use hp_lines::Stop;
use hp_obc::Obc;
use std::alloc::{AllocError, Global};

/// The file that the words of a text are.
#[tactic(auto, using(crate::proofs::Answering::is_file_of))]
fn parse(alloc: Global, text: &[u8]) -> Result<File, ObcErr>
    requires { length text.now ≤ most what.Text }
    ensures file { IfOk result (λ f. IsFileOf text.now (file_seen f)) }
    ensures refused { IfErr result (Refuses text.now) }
    ensures whole { IfErr result (λ e. (f : text_file.File) → IsFileOf text.now f → e ≡ ObcErr.OutOfMemory) }
    ensures syntax { IfErr result (λ e. (span : place.Span) → IsRefused text.now span → (e ≡ ObcErr.Syntax span) ⊎ (e ≡ ObcErr.OutOfMemory)) }
{
    let mut reader = Reader::new(alloc, text);
    match reader.file() {
        Ok(file) => Ok(file),
        Err(Stop::Memory) => Err(ObcErr::OutOfMemory),
        Err(Stop::Refused) => {
            let number = count_words(text).saturating_sub(reader.count());
            Err(ObcErr::Syntax {
                span: place_of(text, number),
            })
        }
    }
}

/// The number of the first word that breaks a rule of form.
fn breach_of(alloc: Global, file: &File) -> Result<Option<usize>, AllocError>
    ensures { IfOk result (IsBreach (in_file (file_seen file.now))) }
{
    let mut found = Found::new();
    check_file(alloc, file, &mut found)?;
    Ok(found.breach)
}

/// The machines of a file that has form.
fn built(alloc: Global, file: File) -> Result<Obc, AllocError>
    requires { HasObcForm (file_seen file).types (map machine_of (file_seen file).machines) }
    ensures { IfOk result (λ o. o ≡ machines_of (file_seen file)) }
{
    let File { types, machines } = file;
    let machines = machines_of(alloc, machines)?;
    Ok(Obc::new(types, machines))
}

/// The machines of a text. What is refused first is its length, then its words, and then its form.
pub fn read_obc(alloc: Global, text: &[u8]) -> Result<Obc, ObcErr>
    ensures machines { IfOk result (IsTextOf text.now) }
    ensures refused { IfErr result (Refuses text.now) }
    ensures read { (o : plain.Obc) → IsTextOf text.now o → (result ≡ Ok o) ⊎ (result ≡ Err ObcErr.OutOfMemory) }
    ensures syntax { (span : place.Span) → IsRefused text.now span → (result ≡ Err (ObcErr.Syntax span)) ⊎ (result ≡ Err ObcErr.OutOfMemory) }
    ensures form { (span : place.Span) → BreaksForm text.now span → (result ≡ Err (ObcErr.Form span)) ⊎ (result ≡ Err ObcErr.OutOfMemory) }
    ensures too_long { most what.Text < length text.now → result ≡ Err (ObcErr.Limit (record { what = what.Text; found = most what.Text + 1 })) }
{
    let limit = What::Text.most();
    if text.len() as u64 > limit {
        return Err(ObcErr::Limit(Limit {
            what: What::Text,
            found: limit + 1,
        }));
    }
    let file = parse(alloc, text)?;
    match breach_of(alloc, &file)? {
        Some(number) => Err(ObcErr::Form {
            span: place_of(text, number),
        }),
        None => Ok(built(alloc, file)?),
    }
}
