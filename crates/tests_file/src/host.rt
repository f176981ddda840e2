// A device over a file of the system, which outlives it.
use file_device::{FileDevice, HostFile, OpenFault};
use save_device::SaveDevice;
use std::fs;
use std::test::Fail;

const PATH: &str = "tests_file_store.bin";

// More than is filled with zeros at once.
const LEN: usize = 100_000;

#[test]
fn a_file_outlives_its_device(rt: HostRuntime) -> Result<(), Fail> {
    let _ = fs::remove_file(&rt, PATH);
    let mut device = FileDevice::<HostFile>::open(&rt, PATH, LEN)?;
    assert_eq!(rt; device.len(), LEN);
    assert_eq!(rt; device.write_at(LEN - 2, &[8, 9]), Ok(()));
    assert_eq!(rt; device.sync(), Ok(()));
    assert!(rt;
        matches!(
            FileDevice::<HostFile>::open(&rt, PATH, LEN),
            Err(OpenFault::Busy)
        )
    );
    drop(device);
    let mut device = FileDevice::<HostFile>::open(&rt, PATH, LEN)?;
    let mut back = [0; 3];
    assert_eq!(rt; device.len(), LEN);
    assert_eq!(rt; device.read(LEN - 3, &mut back), Ok(()));
    assert_eq!(rt; back, [0, 8, 9]);
    drop(device);
    assert!(rt;
        matches!(
            FileDevice::<HostFile>::open(&rt, PATH, 10),
            Err(OpenFault::WrongLength {
                found: 100_000,
                wanted: 10
            })
        )
    );
    fs::remove_file(&rt, PATH)?;
    Ok(())
}

#[test]
fn what_is_no_file_is_refused(rt: HostRuntime) {
    assert!(rt;
        matches!(
            FileDevice::<HostFile>::open(&rt, "/dev/null", LEN),
            Err(OpenFault::NoFile)
        )
    );
    assert!(rt;
        matches!(
            FileDevice::<HostFile>::open(&rt, "/", LEN),
            Err(OpenFault::Io(_))
        )
    );
    assert!(rt;
        matches!(
            FileDevice::<HostFile>::open(&rt, "/dev/full/x", LEN),
            Err(OpenFault::Io(_))
        )
    );
}
