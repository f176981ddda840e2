// The bytes of a device that is stopped.
ghost use Rattle.std.specs.Prelude.{◌≡◌, length};

/// The bytes of a device that is stopped, and the same with another byte in each unsettled place.
#[derive(Drop)]
pub(crate) struct Left {
    pub(crate) bytes: Vec<u8>,
    pub(crate) torn: Vec<u8>,
    ghost whole: { length torn.items ≡ length bytes.items },
}
