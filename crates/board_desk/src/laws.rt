// What a desk keeps of its life.
ghost use Rattle.std.specs.Prelude.{◌≡◌, List, Option};
ghost use Rattle.std.specs.List.{sum_by};
ghost use Rattle.channel_locks.specs.declared.part.Part.{Part};
ghost use Rattle.line_memory.specs.History.{TellsSameFrom};
ghost use Rattle.nv_machine.specs.State.{Machine};
ghost use Rattle.board_hosts.specs.Kept.{whole_record};
ghost use Rattle.board_hosts.specs.Lived.{IsInLife};
ghost use Rattle.board_desk.specs.declared.desk.Desk.{Desk};
ghost use Rattle.board_desk.specs.Credits.{AreParts, owed_in};
ghost use Rattle.board_desk.specs.Desk.{DeskStands, DeskView, setup_at, world_at};
ghost use Rattle.board_desk.specs.Surviving.{DeskSurvives};
ghost use Rattle.board_desk.specs.Views.{desk_of};

use board_hosts::BoardName;
use channel_locks::PartsName;
use channel_port::ChannelPort;
use energy_budget::Energy;
use save_device::SaveDevice;

/// What lies behind the board's lock is in a life, whatever the channels did since under their own locks: some events led from a
/// machine that was new to one for which the desk stands, and whatever a stop leaves of the device now ends this life. Where
/// the gauge has been honest since it began, and the device was spared, the gauge backs what was acknowledged.
pub fn desks_keep_lives<K: ChannelPort, D: SaveDevice, E: Energy, B: BoardName + PartsName>()
    ensures { (desk : Desk K D E B K.ChannelPort D.SaveDevice E.Energy B.BoardName.own
        B.PartsName.own)
        → let view = desk_of K.ChannelPort D.SaveDevice E.Energy B.BoardName.own
        B.PartsName.own desk in
        ∥ ((m : Machine) × DeskStands B.PartsName.own view m
        × IsInLife (setup_at B.PartsName.own view) (world_at view m)) ∥₁ }
{}

/// **Stopped at any moment since its life began, within a call or a device write too, a board's restore is that of the theorem
/// `survives_any_stop`**, whatever its hosts, its workers and its saver did under which locks: each call of the device lies in the
/// life that leads to what the lock gives back. The life began with the board's memory; and behind the lives of other boards, of
/// which the last one left what this one was opened with, the stop ends the whole chain.
pub fn desks_survive<K: ChannelPort, D: SaveDevice, E: Energy, B: BoardName + PartsName>()
    ensures { (desk : Desk K D E B K.ChannelPort D.SaveDevice E.Energy B.BoardName.own
        B.PartsName.own)
        → let view = desk_of K.ChannelPort D.SaveDevice E.Energy B.BoardName.own
        B.PartsName.own desk in
        ∥ (DeskSurvives B.PartsName.own view) ∥₁ }
{}

/// What is recorded of a life tells of each number from its beginning on what the whole life tells, whatever was cut off it.
pub fn desks_tell_lives<B: PartsName>()
    ensures { (desk : DeskView) (m : Machine) → DeskStands B.PartsName.own desk m
        → TellsSameFrom desk.history.start (whole_record m desk.history.room) desk.history }
{}

/// Whoever holds all locks of a board finds: the credits that are out are the writes that wait in its eight channels and the credits
/// that were returned there.
pub fn credits_add_up<K: ChannelPort, B: PartsName>()
    ensures { (desk : DeskView) (m : Machine) (parts : List (Option (Part K K.ChannelPort)))
        → DeskStands B.PartsName.own desk m
        → AreParts K.ChannelPort B.PartsName.own desk.logs parts
        → desk.split.out ≡ sum_by (owed_in K.ChannelPort B.PartsName.own) parts }
{}
