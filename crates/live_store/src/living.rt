// A whole life on a device.
ghost use Rattle.std.specs.Prelude.{◌≡◌, true, IfOk, OnOk};
ghost use Rattle.interleave_map.specs.declared.ready.Interleaving.{Interleaving};
ghost use Rattle.nv_session.specs.Living.{IsShapeFor};
ghost use Rattle.live_store.specs.Lived.{LivesOn};

use crate::answering::converse;
use crate::fault::LiveFault;
use crate::opening::open;
use crate::talk::{Said, Talk};
use channel_port::ChannelPort;
use nv_profile::Profile;
use nv_session::Wires;
use save_device::SaveDevice;
use std::alloc::Global;

/// Lives on a device over the profile's map: says what the life begins with, and answers each line that is heard before the next one is
/// heard, until there is none. Answers the device as the life left it. Nothing is done at the end, as darkness does nothing: what
/// neither a save nor a loss of mains has saved is lost then.
pub fn live_on<K: ChannelPort + Drop, A: Wires<K>, D: SaveDevice + Drop, T: Talk>(
    alloc: Global,
    profile: &Profile,
    wires: &A,
    device: D,
    talk: &mut T,
) -> Result<D, LiveFault>
    requires shape { (map : Interleaving) → IsShapeFor profile.now (A.shape wires.now map) }
    requires out { T.is_out talk.old ≡ true }
    ensures lives { IfOk result (λ after. LivesOn K.ChannelPort profile.now.checked.geometry
        (D.state device) (D.state after)
        (T.heard talk.old) (T.heard talk.new) (T.said talk.old) (T.said talk.new)) }
    ensures over { OnOk result (T.is_over talk.new ≡ true) }
{
    let opened = open(alloc, profile, wires, device)?;
    talk.say(Said::Began(opened.answer))?;
    talk.flush()?;
    let mut life = opened.life;
    converse(alloc, &mut life, talk)?;
    Ok(life.into_device())
}
