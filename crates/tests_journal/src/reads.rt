// Records that are read while a life runs.
use crate::module::{LINES, map_of, opened, small};
use arm_state::ReadRefusal;
use board_hosts::RecordedModule;
use channel_port::ChannelPort;
use ddr4_boards::Ready;
use energy_budget::Meter;
use journal_reads::{NotRead, get};
use line_memory::zero_memory;
use module_core::Module;
use module_journal::Journal;
use nv_machine::StepReply;
use save_device::MemoryDevice;
use std::alloc::Global;
use std::process::Abort;

/// Each byte of the record that has this number in these tests.
fn byte_of(number: u64) -> u8 {
    (number % 256) as u8
}

/// How many of them it has.
fn size_of(number: u64) -> usize {
    [0, 1, 62, 63, 124, 200][(number % 6) as usize]
}

// Whether the record with this number is read as it was appended.
fn is_read<K: ChannelPort>(
    alloc: Global,
    journal: &Journal,
    running: &mut Module<K>,
    number: u64,
) -> bool {
    match get(journal, alloc, running, number) {
        Ok(Some(bytes)) => {
            let wanted = byte_of(number);
            bytes.len() == size_of(number) && bytes.iter().all(|byte| *byte == wanted)
        }
        _ => false,
    }
}

// Whether each record that is there is read so, and those before and behind them are told as none.
fn are_read<K: ChannelPort>(alloc: Global, journal: &Journal, running: &mut Module<K>) -> bool {
    for number in journal.numbers() {
        if !is_read(alloc, journal, running, number) {
            return false;
        }
    }
    let behind = get(journal, alloc, running, journal.end());
    let before = get(journal, alloc, running, journal.first().wrapping_sub(1));
    behind.is_ok_and(|found| found.is_none()) && before.is_ok_and(|found| found.is_none())
}

// Records round the ring, read while they wait in the channels; and none behind the last one.
fn read_a_life<K: ChannelPort + Drop, R: Abort>(
    rt: &R,
    alloc: Global,
    ready: Ready<K, MemoryDevice, Meter>,
) {
    let Ready { recorded, .. } = ready;
    let RecordedModule { mut running, .. } = recorded;
    let memory = zero_memory(alloc, LINES).expect(rt, "memory");
    let mut journal = Journal::open(alloc, &memory).expect(rt, "a journal");
    assert!(rt; are_read(alloc, &journal, &mut running));
    for number in 0..120 {
        if number >= 30 {
            assert!(rt; journal.truncate(&mut running, number - 29).is_ok());
        }
        let (bytes, size) = ([byte_of(number); 200], size_of(number).min(200));
        assert!(rt; journal.append(&mut running, &bytes[..size]).is_ok());
        assert!(rt; is_read(alloc, &journal, &mut running, number));
    }
    assert!(rt; are_read(alloc, &journal, &mut running));
    assert!(rt; get(&journal, alloc, &mut running, 120) == Ok(None));
}

// Records that are appended and read while a save is under way, which holds their writes back.
fn read_beside_a_save<K: ChannelPort + Drop, R: Abort>(
    rt: &R,
    alloc: Global,
    ready: Ready<K, MemoryDevice, Meter>,
) {
    let Ready { recorded, .. } = ready;
    let RecordedModule {
        mut running,
        mut device,
        mut energy,
        ..
    } = recorded;
    let memory = zero_memory(alloc, LINES).expect(rt, "memory");
    let mut journal = Journal::open(alloc, &memory).expect(rt, "a journal");
    assert!(rt; journal.append(&mut running, &[]).is_ok());
    assert!(rt; running.save_begin().is_ok());
    let step = running.save_step(&mut device, &mut energy);
    assert!(rt; !matches!(step, StepReply::NoSave));
    assert!(rt; journal.append(&mut running, &[byte_of(1)]).is_ok());
    assert!(rt; journal.append(&mut running, &[byte_of(2); 62]).is_ok());
    assert!(rt; are_read(alloc, &journal, &mut running));
    assert!(rt; running.save_begin().is_err());
}

// A record that was appended before a loss of mains, which no read gives behind it.
fn read_behind_a_loss<K: ChannelPort + Drop, R: Abort>(
    rt: &R,
    alloc: Global,
    ready: Ready<K, MemoryDevice, Meter>,
) {
    let Ready { recorded, .. } = ready;
    let RecordedModule {
        mut running,
        mut device,
        mut energy,
        ..
    } = recorded;
    let memory = zero_memory(alloc, LINES).expect(rt, "memory");
    let mut journal = Journal::open(alloc, &memory).expect(rt, "a journal");
    assert!(rt; journal.append(&mut running, b"last").is_ok());
    // what the loss answers is no matter here
    let _lost = running.power_loss(&mut device, &mut energy);
    let read = get(&journal, alloc, &mut running, 0);
    assert!(rt; read == Err(NotRead::Refused(ReadRefusal::Closed)));
    assert!(rt; get(&journal, alloc, &mut running, 1) == Ok(None));
}

#[test]
fn records_are_read_while_a_save_runs(rt: HostRuntime) {
    let profile = small(&rt, rt.alloc());
    let map = map_of(&profile);
    let ready = opened(&rt, rt.alloc(), &map, &profile);
    read_beside_a_save(&rt, rt.alloc(), ready);
}

#[test]
fn a_read_is_refused_behind_a_loss(rt: HostRuntime) {
    let profile = small(&rt, rt.alloc());
    let map = map_of(&profile);
    let ready = opened(&rt, rt.alloc(), &map, &profile);
    read_behind_a_loss(&rt, rt.alloc(), ready);
}

#[test]
fn records_are_read_while_a_life_runs(rt: HostRuntime) {
    let profile = small(&rt, rt.alloc());
    let map = map_of(&profile);
    let ready = opened(&rt, rt.alloc(), &map, &profile);
    read_a_life(&rt, rt.alloc(), ready);
}
