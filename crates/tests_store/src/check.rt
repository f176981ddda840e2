// How the tests compare.
use std::fmt::Debug;
use std::process::Abort;

/// Fails where a value isn't the wanted one.
pub(crate) fn same<R: Abort, T: PartialEq + Debug + Drop>(rt: &R, got: T, wanted: T) {
    assert_eq!(*rt; got, wanted);
}
