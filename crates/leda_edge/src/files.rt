//! The real files.
ghost use Rattle.std.specs.Prelude.{◌≡◌, ◌≤◌, None, IfOk, vec_len};

use crate::store::{LoadFault, SaveFault, Store};
use std::alloc::Global;
use std::fs::{self, File};
use std::io::{ErrorKind, Read};
use std::marker::Model;
use std::rt::Files;

/// The files of a runtime as a store. It tells nothing of them, and counts each error other than
/// that a file isn't there.
#[derive(Drop)]
pub struct FileStore<'a, R> {
    rt: &'a R,
    faults: u64,
}

// Contracts see the count of faults.
impl<'a, R> Model for FileStore<'a, R> {
    ghost use Rattle.std.specs.Prelude.{ℕ};

    ghost Value = { ℕ };

    ghost view = { λ store. store.faults };
}

impl<'a, R: Files> FileStore<'a, R> {
    pub fn new(rt: &'a R) -> FileStore<'a, R>
        ensures { result ≡ 0 }
    {
        FileStore { rt, faults: 0 }
    }
}

// How many bytes one read of a file asks for.
const CHUNK: usize = 4096;

// The bytes that are left of a file, at most `max` of them.
fn read_at_most<F: Read>(alloc: Global, file: &mut F, max: usize) -> Result<Vec<u8>, LoadFault>
    ensures { IfOk result (λ bytes. vec_len bytes ≤ max) }
{
    let mut bytes = Vec::new(alloc);
    let mut chunk = [0u8; CHUNK];
    while bytes.len() <= max {
        let count = file.read(&mut chunk).map_err(|_| LoadFault::Failed)?;
        if count == 0 {
            return Ok(bytes);
        }
        if max - bytes.len() < count {
            break;
        }
        bytes
            .extend_from_slice(&chunk[..count])
            .map_err(|_| LoadFault::NoMemory)?;
    }
    Err(LoadFault::TooBig)
}

impl<'a, R: Files> FileStore<'a, R> {
    fn read_file(&self, alloc: Global, name: &str, max: usize) -> Result<Vec<u8>, LoadFault>
        ensures { IfOk result (λ bytes. vec_len bytes ≤ max) }
    {
        match File::open(self.rt, name) {
            Ok(mut file) => read_at_most(alloc, &mut file, max),
            Err(error) if error.kind() == ErrorKind::NotFound => Err(LoadFault::Absent),
            Err(_) => Err(LoadFault::Failed),
        }
    }
}

impl<'a, R: Files> Store for FileStore<'a, R> {
    ghost files = { λ _. None };

    ghost faults = { λ count. count };

    fn load(&mut self, alloc: Global, name: &str, max: usize) -> Result<Vec<u8>, LoadFault> {
        let loaded = self.read_file(alloc, name, max);
        if let Err(LoadFault::Failed) = loaded {
            self.faults = self.faults.saturating_add(1);
        }
        loaded
    }

    fn save(&mut self, _alloc: Global, name: &str, bytes: &[u8]) -> Result<(), SaveFault> {
        match fs::write(self.rt, name, bytes) {
            Ok(()) => Ok(()),
            Err(_) => {
                self.faults = self.faults.saturating_add(1);
                Err(SaveFault::Failed)
            }
        }
    }
}
