// What cuts take off. The expected values are worked out by hand.
use crate::check::same;
use crate::load::Load;
use arm_state::Loss;
use channel_port::ChannelPort;
use save_device::SaveDevice;
use std::process::Abort;

/// In each mode, and while a save runs, the stored writes go that the newest image holds, each once.
pub(crate) fn cut_in_each_mode<K: ChannelPort, D: SaveDevice, R: Abort>(
    rt: &R,
    load: &mut Load<K, D>,
) {
    load.cuts(rt, 0);
    load.save_three_writes(rt);
    load.cuts(rt, 3);
    load.cuts(rt, 0);
    load.write(rt, 0);
    load.begin_save(rt);
    load.cuts(rt, 0);
    same(rt, load.finish_save(rt), 3);
    load.cuts(rt, 1);
    load.charge();
    load.arm_with_a_write(rt);
    load.cuts(rt, 0);
    load.disarm(rt);
    load.cuts(rt, 0);
    same(rt, load.finish_save(rt), 4);
    load.cuts(rt, 1);
    load.arm_with_a_write(rt);
    let saved = Loss::Saved {
        generation: 5,
        count: 6,
    };
    same(rt, load.lose(), saved);
    load.cuts(rt, 1);
    same(rt, load.running.stored_from(), 6);
}
