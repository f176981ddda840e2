// The bytes of a device in a store.
ghost use Rattle.std.specs.Prelude.{◌≡◌, ◌↔◌, ◌++◌, IfOk, IfSome, IsNone, length, replicate};
ghost use Rattle.sector_device.specs.Spare.{spare_size};
ghost use Rattle.store_file.specs.Stores.{IsStoreSize, device_in};

use sector_device::{SPARE_PLACE, found_bytes};
use std::alloc::{AllocError, Global};

/// What a store has behind the bytes of its device.
#[derive(Clone, Copy, Debug, PartialEq, Eq)]
pub enum Form {
    /// Nothing.
    Bare,
    /// A spare place, as the file of a device on a disk that loses whole sectors has it.
    Spare,
}

impl Form {
    /// The form of a store of so many bytes, of a device of `size`.
    pub fn of(len: usize, size: usize) -> Form
        ensures { (result ≡ Form.Bare) ↔ (len ≡ size) }
    {
        if len == size { Form::Bare } else { Form::Spare }
    }
}

/// The bytes of the device, of so many, that a store with these has; none exactly where a store of such a device has another length.
pub fn device_bytes(bytes: Vec<u8>, size: usize) -> Option<Vec<u8>>
    ensures is { IfSome result (λ device. device.items ≡ device_in size bytes.items) }
    ensures size { IfSome result (λ device. length device.items ≡ size) }
    ensures some { IfSome result (λ device. IsStoreSize size (length bytes.items)) }
    ensures none { IsNone result → ¬ IsStoreSize size (length bytes.items) }
{
    if bytes.len() == size {
        return Some(bytes);
    }
    let device = found_bytes(bytes)?;
    if device.len() == size {
        Some(device)
    } else {
        None
    }
}

/// So many zeros.
pub(crate) fn zeros(alloc: Global, n: usize) -> Result<Vec<u8>, AllocError>
    ensures { IfOk result (λ bytes. bytes.items ≡ replicate n 0) }
{
    Vec::from_elem(alloc, 0, n)
}

// The bytes of a device with a spare place behind them whose gate is shut.
fn with_spare(alloc: Global, device: &[u8]) -> Result<Vec<u8>, AllocError>
    ensures { IfOk result (λ bytes. bytes.items ≡ device.now ++ replicate spare_size 0) }
{
    let mut bytes = device.to_vec(alloc)?;
    let mut spare = zeros(alloc, SPARE_PLACE)?;
    bytes.append(&mut spare)?;
    Ok(bytes)
}

/// The bytes of a store of this form whose device has these.
#[tactic(auto, using(crate::proofs::Blank::device_in_bare, crate::proofs::Blank::device_in_spare))]
pub fn store_bytes(alloc: Global, device: &[u8], form: Form) -> Result<Vec<u8>, AllocError>
    ensures { IfOk result (λ bytes. device_in (length device.now) bytes.items ≡ device.now) }
{
    match form {
        Form::Bare => Ok(device.to_vec(alloc)?),
        Form::Spare => with_spare(alloc, device),
    }
}
