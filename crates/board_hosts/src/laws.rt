// What a board keeps of its life.
ghost use Rattle.board_hosts.specs.declared.held.Held.{Held};
ghost use Rattle.line_memory.specs.History.{TellsSameFrom};
ghost use Rattle.nv_machine.specs.State.{Machine};
ghost use Rattle.board_hosts.specs.declared.recorded_module.RecordedModule.{RecordedModule};
ghost use Rattle.board_hosts.specs.Kept.{IsRecordKept, StandsWith, whole_record};
ghost use Rattle.board_hosts.specs.Lived.{IsInLife, StopsSurvive, world_for};
ghost use Rattle.module_core.specs.Stands.{ModuleStands, setup_of};

use crate::board_name::BoardName;
use channel_port::ChannelPort;
use energy_budget::Energy;
use save_device::SaveDevice;

/// A board that was put together is in a life, with its device and its gauge: some events led here from a machine that was new, and
/// whatever a stop leaves of the device now ends this life, of which `survives_any_stop` speaks. Where the gauge has been
/// honest since the life began, and the device was spared, the gauge backs what was acknowledged, and no loss of mains has lost any
/// of it.
pub fn boards_keep_lives<K: ChannelPort, D: SaveDevice, E: Energy, B: BoardName>()
    ensures { (held : Held K D E B K.ChannelPort D.SaveDevice E.Energy B.BoardName.own)
        → ∥ ((m : Machine)
        × ModuleStands K.ChannelPort held.recorded.running (D.state held.recorded.device) m
        × IsInLife (setup_of K.ChannelPort held.recorded.running)
        (world_for K.ChannelPort D.SaveDevice E.Energy held.recorded m)) ∥₁ }
{}

/// **Stopped at any moment since its life began, within a call or a device write too, a board's restore is that of the theorem
/// `survives_any_stop`**, both halves of it: the memory after a prefix of the accepted writes, told Complete one that holds every
/// acknowledged write, and after an honest life one that holds them whatever is told. It is so of a board that was put together,
/// and of a module with its record as a closed board hands it back; and behind the lives of other boards, of which the last one
/// left what this one was opened with, it is so of the whole chain.
pub fn boards_survive<K: ChannelPort, D: SaveDevice, E: Energy, B: BoardName>()
    ensures held { (held : Held K D E B K.ChannelPort D.SaveDevice E.Energy B.BoardName.own)
        → ∥ (StopsSurvive K.ChannelPort D.SaveDevice E.Energy held.recorded) ∥₁ }
    ensures closed { (it : RecordedModule K D E K.ChannelPort)
        → IsRecordKept K.ChannelPort D.SaveDevice E.Energy it
        → ∥ (StopsSurvive K.ChannelPort D.SaveDevice E.Energy it) ∥₁ }
{}

/// What is recorded of a life tells of each number from its beginning on what the whole life tells, whatever was cut off it: the
/// write of the number, the memory after so many writes, and which answers were possible. So a receipt and an answer that are
/// checked against the record are checked against the life.
pub fn records_tell_lives<K: ChannelPort, D: SaveDevice, E: Energy>()
    ensures { (it : RecordedModule K D E K.ChannelPort) (m : Machine)
        → StandsWith K.ChannelPort D.SaveDevice it m
        → TellsSameFrom it.history.start (whole_record m it.history.room) it.history }
{}
