//! Files in a list.
ghost use Rattle.std.specs.Prelude.{◌≡◌, ◌<◌, ◌≤◌, ◌∷◌, Some, None, OnOk, OnErr, IfSome, IsSomeAnd, string_bytes, option_map, vec_items, length};
ghost use Rattle.offline_commands.specs.Memory.{held_in, IsPut};
ghost use Rattle.offline_commands.specs.Outside.{IfBytes};

use crate::interfaces::FileRead;
use std::alloc::{AllocError, Global};
use wire_core::List;

/// A file with its name.
#[derive(Debug, Drop)]
pub struct StoredFile {
    pub name: String,
    pub bytes: Vec<u8>,
}

/// The bytes of the first file of this name.
pub fn first_of<'a>(files: &'a Vec<StoredFile>, name: &String) -> Option<&'a Vec<u8>>
    ensures { option_map (λ bytes. vec_items bytes.now) result ≡ held_in files.now.items (string_bytes name.now) }
{
    files
        .iter()
        .find(|file| file.name == *name)
        .map(|file| &file.bytes)
}

/// Reads a file of a list.
pub fn read_from(alloc: Global, files: &Vec<StoredFile>, name: &String, limit: u32) -> FileRead
    ensures bytes { IfBytes result (λ bytes. (length bytes ≤ limit) × (held_in files.now.items (string_bytes name.now) ≡ Some bytes)) }
    ensures too_long { result ≡ FileRead.TooLong
        → IsSomeAnd (held_in files.now.items (string_bytes name.now)) (λ bytes. limit < length bytes) }
    ensures memory { result ≡ FileRead.OutOfMemory
        → IsSomeAnd (held_in files.now.items (string_bytes name.now)) (λ bytes. length bytes ≤ limit) }
    ensures failed { result ≡ FileRead.Failed → held_in files.now.items (string_bytes name.now) ≡ None }
{
    let Some(bytes) = first_of(files, name) else {
        return FileRead::Failed;
    };
    if bytes.len() > limit as usize {
        return FileRead::TooLong;
    }
    match bytes.to_vec(alloc) {
        Ok(copy) => FileRead::Bytes(List::of(copy)),
        Err(AllocError) => FileRead::OutOfMemory,
    }
}

/// Puts a file before all others of a list.
pub fn put(
    alloc: Global,
    files: &mut Vec<StoredFile>,
    name: &String,
    bytes: &Vec<u8>,
) -> Result<(), AllocError>
    ensures ok { OnOk result (IsPut files.old.items files.new.items (string_bytes name.now) bytes.now.items) }
    ensures err { OnErr result (files.new.items ≡ files.old.items) }
{
    let file = StoredFile {
        name: name.clone()?,
        bytes: bytes.to_vec(alloc)?,
    };
    files.insert(0, file)?;
    Ok(())
}
