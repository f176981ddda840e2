// What becomes of a front with the part of one channel.
ghost use Rattle.std.specs.Prelude.{◌≡◌, ◌+◌, ◌<◌, ◌≤◌, ℕ, List, IfErr, IfOk};
ghost use Rattle.arm_state.specs.Modes.{has_ended};
ghost use Rattle.channel_log.specs.declared.entry.LogEntry.TheVariants.{Looked, Wrote};
ghost use Rattle.channel_log.specs.Log.{LogNote, log_tells};
ghost use Rattle.channel_port.specs.Answers.{IsGot};
ghost use Rattle.channel_port.specs.Waits.{AllBelow};
ghost use Rattle.line_memory.specs.Memory.{after, line_of};
ghost use Rattle.line_memory.specs.Parts.{numbered, writes_of};
ghost use Rattle.channel_locks.specs.Stands.{PartStands, SameButPort, StandsNoted, queue_of, returned_of};
ghost use Rattle.channel_port.specs.View.{with_write};
ghost use Rattle.module_core.specs.Fronts.{AcceptsOne};
ghost use Rattle.split_module.specs.Lending.{LooksAt, ReadsOn, WritesOn};

use crate::SplitFront;
use arm_state::{ReadRefusal, WriteRefusal};
use channel_locks::Part;
use channel_port::{ChannelPort, Got};
use line_memory::Write;
use nv_machine::Accepted;

/// Takes all returned credits of a channel back. The machine that the front stood for goes on to what waits on the channel now.
pub fn take_back<K: ChannelPort>(front: &mut SplitFront, part: &mut Part<K>) -> u64
    requires out { returned_of K.ChannelPort part.old ≤ front.old.out }
    ensures all { result ≡ returned_of K.ChannelPort part.old }
    ensures none { returned_of K.ChannelPort part.new ≡ 0 }
    ensures port { part.new.port ≡ part.old.port }
    ensures channel { part.new.channel ≡ part.old.channel }
    ensures ended { part.new.ended ≡ part.old.ended }
    ensures front { front.new.front ≡ front.old.front }
    ensures costs { front.new.costs ≡ front.old.costs }
    ensures looks { LooksAt K.ChannelPort front.old part.old front.new part.new }
    ensures stands { StandsNoted K.ChannelPort Looked part.old part.new }
{
    let returned = part.take_back();
    front.out -= returned;
    returned
}

/// Accepts a write to a line of the part's channel, of which all returned credits were taken back; or answers why it isn't
/// accepted. A line that there isn't is refused whatever the part is.
pub fn write_on<K: ChannelPort>(
    front: &mut SplitFront,
    part: &mut Part<K>,
    write: Write,
) -> Result<Accepted, WriteRefusal>
    requires taken { returned_of K.ChannelPort part.old ≡ 0 }
    requires few { front.old.out < 1024 }
    requires lines { (K.view part.old.port).lines ≡ front.old.lines }
    requires here { write.line < front.old.lines
        → ((K.view part.old.port).place_of write.line).channel ≡ part.old.channel }
    requires ended { part.old.ended ≡ has_ended front.old.front.mode }
    requires below { AllBelow front.old.front.accepted (queue_of K.ChannelPort part.old) }
    ensures writes { WritesOn K.ChannelPort front.old part.old write result front.new part.new }
    ensures stands { IfOk result (λ accepted. StandsNoted K.ChannelPort
        (Wrote (numbered accepted.number write)) part.old part.new) }
    ensures taken { returned_of K.ChannelPort part.new ≡ 0 }
    ensures puts { IfOk result (λ accepted. K.view part.new.port
        ≡ with_write accepted.number (K.view part.old.port)) }
    ensures issued { K.issued part.new.port ≡ K.issued part.old.port }
    ensures channel { part.new.channel ≡ part.old.channel }
    ensures ended { part.new.ended ≡ part.old.ended }
    ensures accepts { IfOk result (λ accepted.
        AcceptsOne front.old.front accepted front.new.front) }
    ensures costs { front.new.costs ≡ front.old.costs }
    ensures same_front { IfErr result (λ refusal. front.new ≡ front.old) }
    ensures same_part { IfErr result (λ refusal. part.new ≡ part.old) }
{
    if write.line >= front.lines {
        return Err(WriteRefusal::NoSuchLine);
    }
    let need = front.costs.need(front.out + 1);
    match front.front.accept_write(part.is_full(), need) {
        Ok(accepted) => {
            let place = part.place(write.line);
            part.write(accepted.number, write, place);
            front.out += 1;
            Ok(accepted)
        }
        Err(refusal) => Err(refusal),
    }
}

/// Reads a line of the part's channel, of which all returned credits were taken back, as the memory is after all accepted writes;
/// or answers why it isn't read. A line that there isn't is refused whatever the part is.
pub fn read_on<K: ChannelPort>(
    front: &SplitFront,
    part: &mut Part<K>,
    line: u64,
) -> Result<Got, ReadRefusal>
    requires taken { returned_of K.ChannelPort part.old ≡ 0 }
    requires lines { (K.view part.old.port).lines ≡ front.now.lines }
    requires here { line < front.now.lines
        → ((K.view part.old.port).place_of line).channel ≡ part.old.channel }
    requires ended { part.old.ended ≡ has_ended front.now.front.mode }
    ensures reads { ReadsOn K.ChannelPort front.now part.old line result part.new }
    ensures stands { IfOk result (λ got. StandsNoted K.ChannelPort Looked part.old part.new) }
    ensures taken { returned_of K.ChannelPort part.new ≡ 0 }
    ensures rest { K.view part.new.port ≡ record (K.view part.old.port) {
      waits = (K.view part.new.port).waits;
    } }
    ensures got { (base : List (List ℕ)) (log : List LogNote)
        → PartStands K.ChannelPort part.old part.old.channel base log
        → IfOk result (λ got. IsGot
        (line_of (after base (writes_of (log_tells log).written)) line)
        line front.now.front.accepted part.old.channel got
        (K.view part.old.port).waits (K.view part.new.port).waits) }
    ensures issued { K.issued part.new.port ≡ K.issued part.old.port }
    ensures kept { SameButPort K.ChannelPort part.old part.new }
    ensures same { IfErr result (λ refusal. part.new ≡ part.old) }
{
    if line >= front.lines {
        return Err(ReadRefusal::NoSuchLine);
    }
    match front.front.admit_read(part.is_full_of_reads()) {
        Ok(at) => {
            let place = part.place(line);
            Ok(part.read(line, place, at))
        }
        Err(refusal) => Err(refusal),
    }
}
