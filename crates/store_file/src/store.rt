// What a store is.
ghost use Rattle.std.specs.Prelude.{◌≡◌, ◌⊎◌, ℕ, List, Option, IfErr, IfOk, OnOk};
ghost use Rattle.store_file.specs.Stores.{IfHas};

use file_device::OpenFault;
use std::alloc::Global;
use std::io;
use std::rt::Files;

/// Where the bytes of a device are kept, which are read whole and replaced whole. Its type may say what it has; one that says `None`
/// claims nothing, as that of a real file does.
pub trait Store {
    /// What it has, where that is known.
    ghost kept: { Self → Option (List ℕ) };

    /// All its bytes. A store in which nothing was kept yet has zeros: those of a device of so many bytes, and a spare place.
    fn load(&mut self, alloc: Global, size: usize) -> Result<Vec<u8>, OpenFault>
        ensures bytes { IfOk result (λ bytes.
            IfHas (λ kept. bytes.items ≡ kept) (kept self.old)) }
        ensures same { kept self.new ≡ kept self.old };

    /// Has these bytes instead. At whatever moment it is stopped, it has the ones of before or these.
    fn replace<R: Files + AllocGlobal>(&mut self, rt: &R, bytes: &[u8]) -> io::Result<()>
        ensures taken { OnOk result (IfHas (λ kept. kept ≡ bytes.now) (kept self.new)) }
        ensures refused { IfErr result (λ _. (kept self.new ≡ kept self.old)
            ⊎ IfHas (λ kept. kept ≡ bytes.now) (kept self.new)) };
}

/// What a run on a store asks of the system.
pub trait StoreHost {
    type Store: Store + Drop;

    /// The store in the file at the path, or one in which nothing was kept yet, where there is no file. While it is held, other
    /// programs that ask for the file are refused.
    fn open_kept(&self, path: &str) -> Result<Self::Store, OpenFault>;
}
