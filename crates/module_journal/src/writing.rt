// The writes of a journal, one by one.
ghost use Rattle.std.specs.Prelude.{◌≡◌, [], ◌∷◌, Err, IfErr, IfOk, Ok};
ghost use Rattle.module_core.specs.Stands.{setup_of};
ghost use Rattle.module_journal.specs.Writing.{EndsWith, HasWritten};

use arm_state::WriteRefusal;
use channel_port::ChannelPort;
use line_memory::Write;
use module_core::Module;
use nv_machine::{Accepted, Reply};

/// How often a write is tried for which its channel has no room. Between two tries the channel issues a command.
const TRIES: u32 = 256;

// The channel of a line issues a command.
fn work_for<K: ChannelPort>(nvdimm: &mut Module<K>, line: u64)
    ensures written { HasWritten K.ChannelPort [] nvdimm.old nvdimm.new }
    ensures setup { setup_of K.ChannelPort nvdimm.new ≡ setup_of K.ChannelPort nvdimm.old }
{
    let Some(place) = nvdimm.channels().locate(line) else {
        return;
    };
    if place.channel >= nvdimm.channels().count() {
        return;
    }
    let _done = nvdimm.work(place.channel);
}

// Writes a line. A refusal accepts nothing.
fn put_once<K: ChannelPort>(nvdimm: &mut Module<K>, write: Write) -> Result<Accepted, WriteRefusal>
    ensures done { IfOk result (λ accepted.
        EndsWith K.ChannelPort (Reply.Write (Ok accepted)) (write ∷ []) nvdimm.old nvdimm.new) }
    ensures refused { IfErr result (λ refusal.
        EndsWith K.ChannelPort (Reply.Write (Err refusal)) [] nvdimm.old nvdimm.new) }
    ensures setup { setup_of K.ChannelPort nvdimm.new ≡ setup_of K.ChannelPort nvdimm.old }
{
    nvdimm.write(write)
}

// Writes a line, once its channel has room for it or the tries are over. A refusal accepts nothing.
pub(crate) fn put<K: ChannelPort>(
    nvdimm: &mut Module<K>,
    write: Write,
) -> Result<Accepted, WriteRefusal>
    ensures done { IfOk result (λ accepted.
        EndsWith K.ChannelPort (Reply.Write (Ok accepted)) (write ∷ []) nvdimm.old nvdimm.new) }
    ensures refused { IfErr result (λ refusal.
        EndsWith K.ChannelPort (Reply.Write (Err refusal)) [] nvdimm.old nvdimm.new) }
    ensures setup { setup_of K.ChannelPort nvdimm.new ≡ setup_of K.ChannelPort nvdimm.old }
{
    for _try in 1..TRIES {
        match put_once(nvdimm, write) {
            Err(WriteRefusal::Full) => work_for(nvdimm, write.line),
            answer => return answer,
        }
    }
    put_once(nvdimm, write)
}
