// Traces of the same values.
ghost use Rattle.std.specs.Prelude.{◌≡◌};

use crate::Trace;
use std::marker::PhantomData;

impl<X> Trace<X> {
    /// A trace of the same values. At run time nothing happens.
    pub fn copy(&self) -> Trace<X>
        ensures { result.items ≡ self.now.items }
    {
        Trace { of: PhantomData }
    }
}
