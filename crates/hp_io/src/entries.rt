//! Files in memory, each with its name. Where two have one name, the first counts.
ghost use Rattle.std.specs.Prelude.{◌≡◌, ◌≤◌, ◌++◌, [], ◌∷◌, length, map, take, option_copied, position, string_bytes, bytes_eq, OnErr, OnOk};
ghost use Rattle.std.specs.FinMap as finmap;
ghost use Rattle.hp_io.specs.Memory.{files_of, names_of, readings_of};

use std::alloc::AllocError;

/// What the file of this name holds.
pub(crate) fn held<'a>(files: &'a [(String, Vec<u8>)], name: &str) -> Option<&'a [u8]>
    ensures { option_copied result ≡ finmap.get (files_of files.now) name.now }
{
    let i = place(files, name)?;
    Some(files[i].1.as_slice())
}

/// Where the first file of this name stands.
fn place(files: &[(String, Vec<u8>)], name: &str) -> Option<usize>
    ensures { result ≡ position (λ f. bytes_eq (string_bytes f.0) name.now) files.now }
{
    files.iter().position(|file| file.0.as_str() == name)
}

/// Holds these bytes under the name, in place of what is there.
pub(crate) fn put_file(
    files: &mut Vec<(String, Vec<u8>)>,
    name: &str,
    bytes: &[u8],
) -> Result<(), AllocError>
    ensures ok { OnOk result (files_of files.new.items ≡ finmap.insert (files_of files.old.items) name.now bytes.now) }
    ensures names { OnOk result (take (length files.old.items) (names_of files.new.items) ≡ names_of files.old.items) }
    ensures longer { OnOk result (length files.old.items ≤ length files.new.items) }
    ensures err { OnErr result (files.new.items ≡ files.old.items) }
{
    let alloc = *files.allocator();
    let bytes = Vec::from_slice(alloc, bytes)?;
    match place(files, name) {
        Some(i) => files[i].1 = bytes,
        None => files.push((String::from_str(alloc, name)?, bytes))?,
    }
    Ok(())
}

/// Tells one more reading: the name of its file, and its limit.
pub(crate) fn note(
    gave: &mut Vec<(String, usize)>,
    name: &str,
    limit: usize,
) -> Result<(), AllocError>
    ensures ok { OnOk result (readings_of gave.new.items ≡ readings_of gave.old.items ++ (name.now, limit) ∷ []) }
    ensures err { OnErr result (gave.new.items ≡ gave.old.items) }
{
    let alloc = *gave.allocator();
    gave.push((String::from_str(alloc, name)?, limit))?;
    Ok(())
}

/// Gives a file of at most `limit` bytes, and tells that reading.
pub(crate) fn give(
    bytes: &[u8],
    gave: &mut Vec<(String, usize)>,
    name: &str,
    limit: usize,
    into: &mut Vec<u8>,
) -> Result<(), AllocError>
    requires { into.old.items ≡ [] }
    ensures ok { OnOk result (into.new.items ≡ bytes.now) }
    ensures told { OnOk result (readings_of gave.new.items ≡ readings_of gave.old.items ++ (name.now, limit) ∷ []) }
    ensures err { OnErr result (into.new.items ≡ []) }
    ensures untold { OnErr result (gave.new.items ≡ gave.old.items) }
{
    into.extend_from_slice(bytes)?;
    let noted = note(gave, name, limit);
    if noted.is_err() {
        into.clear();
    }
    noted
}
