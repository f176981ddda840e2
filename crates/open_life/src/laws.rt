// What the definitions say of open lives.
ghost use Rattle.open_life.specs.Lives.{SurvivesAnyStop};
ghost use Rattle.open_life.specs.Now.{now_of};
ghost use Rattle.open_life.specs.declared.life.OpenLife.{OpenLife};

use channel_port::ChannelPort;
use save_device::SaveDevice;

/// **Stopped at any moment since it began, within a call or a device write too, an open life's restore is that of the theorem
/// `survives_any_stop`**: the memory after a prefix of the accepted writes, told Complete one that holds every acknowledged write, and
/// after an honest life one that holds them whatever is told. So each open life is one of those that `nv_machine` speaks of.
pub fn open_lives_survive<K: ChannelPort, D: SaveDevice>()
    ensures { (life : OpenLife K D K.ChannelPort D.SaveDevice)
        → ∥ (SurvivesAnyStop K.ChannelPort (now_of life)) ∥₁ }
{}
