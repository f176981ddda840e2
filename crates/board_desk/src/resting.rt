// What is asked of a desk alone: a saver's turn, and whether its record bears out what hosts were told.
ghost use Rattle.std.specs.Prelude.{◌≡◌, IfErr, IfOk};
ghost use Rattle.nv_machine.specs.State.{Machine};
ghost use Rattle.board_hosts.specs.Ending.{AreChecked, IsStranger};
ghost use Rattle.board_hosts.specs.Savers.{turn_of};

use crate::desk::Desk;
use board_hosts::{BoardName, Cut, Receipt, SaverTurn, Seen, Stranger, check, turn_at};
use channel_locks::PartsName;
use channel_port::ChannelPort;
use energy_budget::Energy;
use save_device::SaveDevice;

impl<K: ChannelPort, D: SaveDevice, E: Energy, B: BoardName + PartsName> Desk<K, D, E, B> {
    ghost use Rattle.board_desk.specs.Desk.{DeskStands};
    ghost use Rattle.board_desk.specs.Views.{desk_of};

    /// What a saver is to do now. No channel is asked for it.
    pub fn saver_turn(&self) -> SaverTurn
        ensures { (m : Machine) → DeskStands B.PartsName.own
            (desk_of K.ChannelPort D.SaveDevice E.Energy B.BoardName.own B.PartsName.own self.now) m
            → result ≡ turn_of m self.now.split.front.saved }
    {
        let front = &self.split.front;
        turn_at(
            front.mode(),
            front.save_state(),
            front.saved(),
            front.accepted(),
        )
    }

    /// Checks receipts and answers against what is stored of the life: how many were checked, and how many are past; or the first
    /// stranger among them.
    pub fn check(&self, receipts: &[Receipt], answers: &[Seen]) -> Result<Cut, Stranger>
        ensures checked { IfOk result (λ told. AreChecked self.now.split.front.terms.start
            self.now.history receipts.now answers.now told) }
        ensures stranger { IfErr result (λ stranger. IsStranger self.now.split.front.terms.start
            self.now.history receipts.now answers.now stranger) }
    {
        check(&self.history, self.split.front.start(), receipts, answers)
    }
}
