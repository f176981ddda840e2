// A store in memory, for tests.
ghost use Rattle.std.specs.Prelude.{◌≡◌, IfOk, Some};

use crate::store::Store;
use file_device::OpenFault;
use std::alloc::Global;
use std::io;
use std::rt::Files;

/// A store in memory that is as the trait says: so there is one.
#[derive(Drop)]
pub struct ModelStore {
    bytes: Vec<u8>,
}

impl ModelStore {
    /// A store with these bytes.
    pub fn new(bytes: Vec<u8>) -> ModelStore
        ensures { ⟦<ModelStore as Store>⟧.kept result ≡ Some bytes.items }
    {
        ModelStore { bytes }
    }

    /// Its bytes.
    pub fn into_bytes(self) -> Vec<u8>
        ensures { ⟦<ModelStore as Store>⟧.kept self ≡ Some result.items }
    {
        let ModelStore { bytes } = self;
        bytes
    }
}

fn copied(bytes: &[u8], alloc: Global) -> io::Result<Vec<u8>>
    ensures { IfOk result (λ copy. copy.items ≡ bytes.now) }
{
    Ok(bytes.to_vec(alloc)?)
}

impl Store for ModelStore {
    ghost kept = { λ store. Some store.bytes.items };

    fn load(&mut self, alloc: Global, _size: usize) -> Result<Vec<u8>, OpenFault> {
        Ok(copied(&self.bytes, alloc)?)
    }

    fn replace<R: Files + AllocGlobal>(&mut self, rt: &R, bytes: &[u8]) -> io::Result<()> {
        self.bytes = copied(bytes, rt.alloc())?;
        Ok(())
    }
}
