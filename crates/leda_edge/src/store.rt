//! What files are loaded from and saved to.
ghost use Rattle.std.specs.Prelude.{◌≡◌, ℕ, ◌≤◌, Option, IfOk, OnOk, IsErrOf, vec_len};
ghost use Rattle.leda_edge.specs.Causes.{Rose};
ghost use Rattle.leda_edge.specs.Files.{FileMap, HasFile, LacksFile, HasLonger, OpensFile, Saves};
ghost use Rattle.leda_edge.specs.Parts.{StaysTold};

use std::alloc::Global;

/// Why a file wasn't loaded.
#[derive(Clone, Copy, Debug, PartialEq, Eq)]
pub enum LoadFault {
    /// No file has the name.
    Absent,
    /// The file is longer than was asked for.
    TooBig,
    /// A read or an opening failed, and the store has counted it.
    Failed,
    /// Memory was wanted.
    NoMemory,
}

/// Why a file wasn't saved.
#[derive(Clone, Copy, Debug, PartialEq, Eq)]
pub enum SaveFault {
    /// A write or an opening failed, and the store has counted it.
    Failed,
    /// Memory was wanted.
    NoMemory,
}

/// Files by their names.
pub trait Store {
    /// The files, where they are told.
    ghost files: { Self → Option FileMap };

    /// How many calls have failed.
    ghost faults: { Self → ℕ };

    /// The bytes of a file, at most `max` of them. No file changes.
    ///
    /// # Errors
    /// `Absent` only where no file has the name, and `TooBig` only where the file is longer than
    /// `max`, or where the files aren't told. `Failed` only where the count of faults rose.
    /// `NoMemory` for want of memory.
    fn load(&mut self, alloc: Global, name: &str, max: usize) -> Result<Vec<u8>, LoadFault>
        ensures bytes { IfOk result (λ bytes. HasFile (files self.old) name.now bytes.items) }
        ensures within { IfOk result (λ bytes. vec_len bytes ≤ max) }
        ensures absent { IsErrOf result LoadFault.Absent → LacksFile (files self.old) name.now }
        ensures too_big { IsErrOf result LoadFault.TooBig
            → HasLonger (files self.old) name.now max }
        ensures failed { IsErrOf result LoadFault.Failed
            → Rose (faults self.old) (faults self.new) }
        ensures later { faults self.old ≤ faults self.new }
        ensures kept { files self.new ≡ files self.old };

    /// Makes the named file hold these bytes. No other file changes.
    ///
    /// # Errors
    /// `Failed` only where the count of faults rose: the named file may then have any bytes, or be
    /// gone. `NoMemory` for want of memory: no file has changed then.
    fn save(&mut self, alloc: Global, name: &str, bytes: &[u8]) -> Result<(), SaveFault>
        ensures saved { OnOk result (Saves (files self.old) (files self.new) name.now bytes.now) }
        ensures open { IsErrOf result SaveFault.Failed
            → OpensFile (files self.old) (files self.new) name.now }
        ensures failed { IsErrOf result SaveFault.Failed
            → Rose (faults self.old) (faults self.new) }
        ensures unchanged { IsErrOf result SaveFault.NoMemory → files self.new ≡ files self.old }
        ensures later { faults self.old ≤ faults self.new }
        ensures told { StaysTold (files self.old) (files self.new) };
}
