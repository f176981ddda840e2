// A save, one device call a step.
ghost use Rattle.std.specs.Prelude.{◌≡◌, ◌⊎◌, ◌↔◌, ℕ, ◌+◌, ◌++◌, ◌-◌, ◌*◌, ◌<◌, ◌≤◌, ◌^◌, true, false, List, drop, length, is_ok, IsTrue, OnOk, IfOk};
ghost use Rattle.std.specs.Option.{SomeIff};
ghost use Rattle.save_device.specs.Rows.{IsInRange, DiffersOnlyAt};
ghost use Rattle.save_device.specs.Device.{DeviceState, LeavesOnly};
ghost use Rattle.sha2.specs.Hashers.{Holds256};
ghost use Rattle.sha2.specs.Sha256.{sha256};
ghost use Rattle.line_memory.specs.Memory.{IsMemory};
ghost use Rattle.save_image.specs.Image.{Image};
ghost use Rattle.slot_store.specs.declared.plan.Step.TheVariants.{Done};
ghost use Rattle.slot_store.specs.Slots.{IsCapacity, HasSize, other, slot_size};
ghost use Rattle.slot_store.specs.Steps.{step_after, steps_left, reach_of};
ghost use Rattle.slot_store.specs.Changes.{gate_of, body_bytes, closed_before, GivesPage};
ghost use Rattle.slot_store.specs.Rest.{Candidates, IsAtRest};
ghost use Rattle.slot_store.specs.Saving.{Leaves};

use crate::slots::device_size;
use crate::{Newest, Plan, Slot, Step};
use save_device::{DeviceFault, SaveDevice};
use save_image::{PAGE_BYTES, PAGE_LINES, header_bytes_2};
use sha2::{Digest, Sha256};

/// A gate that is open; any other byte is closed, and closing writes 0x00.
const OPEN: u8 = 0xA5;

/// How often the device has failed in a save that begins.
const NO_FAILURES: u64 = 0;

/// A save that runs: what is saved where, the coming step, and whether that was tried and failed. Between its steps the
/// caller may do as it likes, and it may give the save up.
#[derive(Drop)]
pub struct SaveRun {
    plan: Plan,
    next: Step,
    tried: bool,
    failures: u64,
    // It holds the pages that were written so far.
    hasher: Sha256,
    ghost place: { reach_of next ≤ plan.lines },
}

// All of a header but its gate.
fn tail_of(header: &[u8; PAGE_BYTES]) -> &[u8]
    ensures tail { result.now ≡ drop 1 header.now }
    ensures len { length result.now ≡ 4095 }
{
    &header[1..]
}

// Digests what a step wrote of the body.
fn digest_written(hasher: &mut Sha256, step: Step, page: &[u8; PAGE_BYTES])
    ensures { (message : List ℕ) → Holds256 hasher.old message
        → Holds256 hasher.new (message ++ body_bytes step page.now) }
{
    if let Step::Page(_) = step {
        hasher.update(page);
    }
}

impl SaveRun {
    ghost use Rattle.slot_store.specs.Runs.{plan_of, next_of, tried_of, failures_of, newest_made, GoesOnFrom, HasDigested, HasSoFar, MakesStep, Saving};

    /// A save of a memory after `count` writes over the newest image, in the other slot, with the next generation; its
    /// arm byte is 0x5A where it is `armed`. `closed` says that the other slot's gate is known closed and settled. It makes
    /// no device call.
    pub fn begin(newest: Newest, closed: bool, count: u64, armed: bool, lines: usize) -> SaveRun
        requires generation { newest.generation < 2 ^ 63 - 1 }
        requires count { count ≤ 2 ^ 62 }
        requires capacity { IsCapacity lines }
        ensures slot { (plan_of result).slot ≡ other newest.slot }
        ensures generation { (plan_of result).generation ≡ newest.generation + 1 }
        ensures count { (plan_of result).count ≡ count }
        ensures armed { (plan_of result).armed ≡ armed }
        ensures closed { (plan_of result).closed ≡ closed }
        ensures lines { (plan_of result).lines ≡ lines }
        ensures next { next_of result ≡ Step.Close }
        ensures untried { tried_of result ≡ false }
        ensures unfailed { failures_of result ≡ 0 }

        // Over a device at rest it stands at its first step.
        ensures begun { (candidates : Candidates) (old : Image) (memory : List (List ℕ))
            (state : DeviceState)
            → IsAtRest candidates old newest.slot lines closed state
            → old.generation ≡ newest.generation → IsMemory lines memory
            → Saving candidates old memory result state }
    {
        let Newest { slot, generation } = newest.next();
        SaveRun {
            plan: Plan {
                slot,
                generation,
                count,
                armed,
                closed,
                lines,
            },
            next: Step::Close,
            tried: false,
            failures: NO_FAILURES,
            hasher: Sha256::new(),
        }
    }

    // The first save of all, in the first slot, over gates that are closed and settled.
    pub(crate) fn behind_shut_gates(lines: usize) -> SaveRun
        requires { IsCapacity lines }
        ensures slot { (plan_of result).slot ≡ Slot.First }
        ensures generation { (plan_of result).generation ≡ 1 }
        ensures count { (plan_of result).count ≡ 0 }
        ensures clear { (plan_of result).armed ≡ false }
        ensures closed { (plan_of result).closed ≡ true }
        ensures lines { (plan_of result).lines ≡ lines }
        ensures next { next_of result ≡ Step.Page 0 }
        ensures digested { (memory : List (List ℕ)) → HasDigested memory result }
    {
        SaveRun {
            plan: Plan {
                slot: Slot::First,
                generation: 1,
                count: 0,
                armed: false,
                closed: true,
                lines,
            },
            next: Step::Page(0),
            tried: false,
            failures: NO_FAILURES,
            hasher: Sha256::new(),
        }
    }

    /// The same save, at the same step.
    pub fn copy(&self) -> SaveRun
        ensures { result ≡ self.now }
    {
        let hasher = self.hasher.clone().unwrap();
        SaveRun {
            plan: self.plan,
            next: self.next,
            tried: self.tried,
            failures: self.failures,
            hasher,
        }
    }

    /// The coming step.
    pub fn next(&self) -> Step
        ensures { result ≡ next_of self.now }
    {
        self.next
    }

    /// The number of writes that the image holds.
    pub fn count(&self) -> u64
        ensures { result ≡ (plan_of self.now).count }
    {
        self.plan.count
    }

    /// The number of steps, and so of device calls, that are still to come.
    pub fn steps_left(&self) -> usize
        ensures { result ≡ steps_left (plan_of self.now).lines (next_of self.now) }
    {
        let pages = self.plan.lines / PAGE_LINES;
        match self.next {
            Step::Close => pages + 6,
            Step::SyncClosed => pages + 5,
            Step::Page(page) => pages + 4 - page,
            Step::Header => 4,
            Step::SyncBody => 3,
            Step::Open => 2,
            Step::SyncOpen => 1,
            Step::Done => 0,
        }
    }

    /// Whether the device has the length that this save needs.
    pub fn fits<D: SaveDevice>(&self, device: &D) -> bool
        ensures { IsTrue result ↔ HasSize (plan_of self.now).lines (D.state device.now) }
    {
        device.len() == device_size(self.plan.lines)
    }

    /// Whether the gate of the slot counts as closed where the save is given up now, for the one that is made in its place:
    /// after a failed step too, and also where a step is still to come that would open it.
    pub fn is_closed(&self) -> bool
        ensures { result ≡ closed_before (plan_of self.now) (next_of self.now) (tried_of self.now) }
    {
        match self.next {
            Step::Close | Step::SyncClosed => self.plan.closed,
            Step::Page(_) | Step::Header | Step::SyncBody => true,
            Step::Open => !self.tried,
            Step::SyncOpen | Step::Done => false,
        }
    }

    /// The image that it made, once its last step was made; none before. It is the newest image from then on: a caller keeps it
    /// in place of the one that it had, and begins the next save over it, with what `is_closed` says of the other slot's gate.
    pub fn newest(&self) -> Option<Newest>
        ensures { SomeIff result (next_of self.now ≡ Done) (newest_made (plan_of self.now)) }
    {
        match self.next {
            Step::Done => Some(Newest {
                slot: self.plan.slot,
                generation: self.plan.generation,
            }),
            _ => None,
        }
    }

    /// Whether the coming step was tried already, and the device failed in it.
    pub fn has_failed(&self) -> bool
        ensures { result ≡ tried_of self.now }
    {
        self.tried
    }

    /// How often the device failed in a step of it, or the largest number where it did more often.
    pub fn failures(&self) -> u64
        ensures { result ≡ failures_of self.now }
    {
        self.failures
    }

    // The step after the coming one.
    fn after(&self) -> Step
        ensures after { result ≡ step_after self.now.plan.lines self.now.next }
        ensures place { reach_of result ≤ self.now.plan.lines }
    {
        match self.next {
            Step::Close => Step::SyncClosed,
            Step::SyncClosed => Step::Page(0),
            Step::Page(page) => {
                if PAGE_LINES * (page + 2) <= self.plan.lines {
                    Step::Page(page + 1)
                } else {
                    Step::Header
                }
            }
            Step::Header => Step::SyncBody,
            Step::SyncBody => Step::Open,
            Step::Open => Step::SyncOpen,
            Step::SyncOpen => Step::Done,
            Step::Done => Step::Done,
        }
    }

    // The digest of the pages that were written so far.
    fn digest(&self) -> [u8; 32]
        ensures size { length result ≡ 32 }
        ensures digest { (message : List ℕ) → Holds256 self.now.hasher message
            → result ≡ sha256 message }
    {
        self.hasher.clone().unwrap().finalize()
    }

    // The one device call of the coming step.
    fn call<D: SaveDevice>(
        &self,
        device: &mut D,
        page: &[u8; PAGE_BYTES],
    ) -> Result<(), DeviceFault>
        requires { HasSize self.now.plan.lines (D.state device.old) }
        ensures { MakesStep self.now page.now (is_ok result)
            (D.state device.old) (D.state device.new) }
    {
        let start = self.plan.slot.start(self.plan.lines);
        match self.next {
            Step::Close => {
                if self.plan.closed {
                    device.sync()
                } else {
                    device.write_at(start, &[0])
                }
            }
            Step::Page(k) => device.write_at(start + PAGE_BYTES + PAGE_BYTES * k, page),
            Step::Header => {
                let header = header_bytes_2(
                    self.plan.generation,
                    self.plan.count,
                    self.plan.lines as u64,
                    self.plan.armed,
                    &self.digest(),
                );
                device.write_at(start + 1, tail_of(&header))
            }
            Step::Open => device.write_at(start, &[OPEN]),
            Step::SyncClosed | Step::SyncBody | Step::SyncOpen | Step::Done => device.sync(),
        }
    }

    /// Makes the coming step, one call of the device, and says which it was. A page step writes `page`, the other steps
    /// don't read it. After a fault the same step comes again.
    pub fn step<D: SaveDevice>(
        &mut self,
        device: &mut D,
        page: &[u8; PAGE_BYTES],
    ) -> Result<Step, DeviceFault>
        requires { HasSize (plan_of self.old).lines (D.state device.old) }

        // The one call that the plan says, and what it makes of each byte; the header has the digest of the pages that were
        // written. Nothing outside the slot is written.
        ensures call { MakesStep self.old page.now (is_ok result)
            (D.state device.old) (D.state device.new) }
        ensures outside { DiffersOnlyAt
            (IsInRange (gate_of (plan_of self.old)) (slot_size (plan_of self.old).lines))
            (D.state device.old).bytes (D.state device.new).bytes }
        ensures step { IfOk result (λ step. step ≡ next_of self.old) }
        ensures next { GoesOnFrom (is_ok result) self.old self.new }

        // What stands in the slot, whatever the other one holds.
        ensures has { (memory : List (List ℕ)) → IsMemory (plan_of self.old).lines memory
            → GivesPage memory (next_of self.old) page.now
            → HasSoFar memory self.old (D.state device.old)
            → HasSoFar memory self.new (D.state device.new) }

        // A save over the newest image goes on; after a fault it stands at the same step.
        ensures saving { (candidates : Candidates) (old : Image) (memory : List (List ℕ))
            → GivesPage memory (next_of self.old) page.now
            → Saving candidates old memory self.old (D.state device.old)
            → Saving candidates old memory self.new (D.state device.new) }

        // A stop at any moment of the call, whatever its answer.
        ensures any_moment { (candidates : Candidates) (old : Image) (memory : List (List ℕ))
            → Saving candidates old memory self.old (D.state device.old)
            → LeavesOnly (D.state device.old) (D.state device.new)
            (Leaves candidates old (plan_of self.old) memory (next_of self.old)) }
    {
        let step = self.next;
        match self.call(device, page) {
            Ok(()) => {
                digest_written(&mut self.hasher, step, page);
                self.next = self.after();
                self.tried = false;
                Ok(step)
            }
            Err(fault) => {
                self.tried = true;
                self.failures = self.failures.saturating_add(1);
                Err(fault)
            }
        }
    }
}
