//! A store in memory, for tests: which files it has and which of its calls fail is laid down when
//! it is made.
ghost use Rattle.std.specs.Prelude.{◌≡◌, ◌⊎◌, ◌↔◌, ◌≤◌, Some, IfOk, IsErr, OnOk, IsErrOf, Contains, map, option_map, vec_len};
ghost use Rattle.std.specs.List.{position};
ghost use Rattle.std.specs.Str.{bytes_eq};
ghost use Rattle.std.specs.String.{string_bytes};
ghost use Rattle.leda_edge.specs.Causes.{Rose};
ghost use Rattle.leda_edge.specs.Files.{HasFile, LacksFile, HasLonger, OpensFile, Saves};
ghost use Rattle.leda_edge.specs.Memory.{counted, entry_of, file_in, with_file};
ghost use Rattle.leda_edge.specs.Parts.{StaysTold};

use crate::calls::CallPlan;
use crate::store::{LoadFault, SaveFault, Store};
use std::alloc::Global;
use std::marker::Model;

/// Files in memory, which the store tells.
#[derive(Drop)]
pub struct MemStore {
    files: Vec<(String, Vec<u8>)>,
    calls: CallPlan,
}

impl Model for MemStore {
    ghost use Rattle.std.specs.Prelude.{map};
    ghost use Rattle.leda_edge.specs.Memory.{Filing, entry_of};

    ghost Value = { Filing };

    ghost view = { λ store. record {
      entries = map entry_of store.files.items;
      calls = store.calls;
    } };
}

impl MemStore {
    /// A store of these files; of two with one name, the first is the file. The loads and saves
    /// whose numbers are in `fails` fail. The first of both has the number 1, and numbers stop at
    /// `u64::MAX`.
    pub fn new(files: Vec<(String, Vec<u8>)>, fails: Vec<u64>) -> MemStore
        ensures { result ≡ record {
          entries = map entry_of files.items;
          calls = record { fails = fails.items; made = 0; faults = 0 };
        } }
    {
        MemStore {
            files,
            calls: CallPlan::new(fails),
        }
    }

    /// The bytes of a file, or `None` exactly where there is none of that name.
    pub fn file(&self, name: &str) -> Option<&[u8]>
        ensures { option_map (λ bytes. bytes.now) result ≡ file_in self.now.entries name.now }
    {
        let at = place_of(self.files.as_slice(), name)?;
        Some(self.files[at].1.as_slice())
    }
}

/// Where the first file of that name stands.
fn place_of(files: &[(String, Vec<u8>)], name: &str) -> Option<usize>
    ensures { result ≡ position (λ file. bytes_eq (string_bytes file.0) name.now) files.now }
{
    files.iter().position(|file| file.0.as_str() == name)
}

impl Store for MemStore {
    ghost files = { λ store. Some (file_in store.entries) };

    ghost faults = { λ store. store.calls.faults };

    fn load(&mut self, alloc: Global, name: &str, max: usize) -> Result<Vec<u8>, LoadFault>
        ensures bytes { IfOk result (λ bytes.
            HasFile (Some (file_in self.old.entries)) name.now bytes.items) }
        ensures within { IfOk result (λ bytes. vec_len bytes ≤ max) }
        ensures absent { IsErrOf result LoadFault.Absent
            → LacksFile (Some (file_in self.old.entries)) name.now }
        ensures too_big { IsErrOf result LoadFault.TooBig
            → HasLonger (Some (file_in self.old.entries)) name.now max }
        ensures failed { IsErrOf result LoadFault.Failed
            → Rose self.old.calls.faults self.new.calls.faults }
        ensures later { self.old.calls.faults ≤ self.new.calls.faults }
        ensures kept { Some (file_in self.new.entries) ≡ Some (file_in self.old.entries) }

        // A load fails exactly where its number is listed; no other answer is counted as a fault.
        ensures listed { IsErrOf result LoadFault.Failed
            ↔ Contains self.old.calls.fails self.new.calls.made }
        ensures counts { IsErrOf result LoadFault.Failed ⊎ (self.new.calls
            ≡ counted self.old.calls) }
    {
        if self.calls.begin() {
            self.calls.fail();
            return Err(LoadFault::Failed);
        }
        let Some(bytes) = self.file(name) else {
            return Err(LoadFault::Absent);
        };
        if max < bytes.len() {
            return Err(LoadFault::TooBig);
        }
        bytes.to_vec(alloc).map_err(|_| LoadFault::NoMemory)
    }

    fn save(&mut self, alloc: Global, name: &str, bytes: &[u8]) -> Result<(), SaveFault>
        ensures saved { OnOk result (Saves (Some (file_in self.old.entries))
            (Some (file_in self.new.entries)) name.now bytes.now) }
        ensures open { IsErrOf result SaveFault.Failed
            → OpensFile (Some (file_in self.old.entries)) (Some (file_in self.new.entries))
            name.now }
        ensures failed { IsErrOf result SaveFault.Failed
            → Rose self.old.calls.faults self.new.calls.faults }
        ensures unchanged { IsErrOf result SaveFault.NoMemory
            → Some (file_in self.new.entries) ≡ Some (file_in self.old.entries) }
        ensures later { self.old.calls.faults ≤ self.new.calls.faults }
        ensures told { StaysTold (Some (file_in self.old.entries))
            (Some (file_in self.new.entries)) }

        // A save fails exactly where its number is listed; no other answer is counted as a fault.
        ensures listed { IsErrOf result SaveFault.Failed
            ↔ Contains self.old.calls.fails self.new.calls.made }
        ensures entries { OnOk result (self.new.entries
            ≡ with_file name.now bytes.now self.old.entries) }
        ensures same { IsErr result → self.new.entries ≡ self.old.entries }
    {
        if self.calls.begin() {
            self.calls.fail();
            return Err(SaveFault::Failed);
        }
        let bytes = bytes.to_vec(alloc).map_err(|_| SaveFault::NoMemory)?;
        match place_of(self.files.as_slice(), name) {
            Some(at) => self.files[at].1 = bytes,
            None => {
                let name = String::from_str(alloc, name).map_err(|_| SaveFault::NoMemory)?;
                self.files
                    .push((name, bytes))
                    .map_err(|_| SaveFault::NoMemory)?;
            }
        }
        Ok(())
    }
}
