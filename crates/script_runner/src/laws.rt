// What the definitions say of the lives of a script.
ghost use Rattle.std.specs.Prelude.{List};
ghost use Rattle.nv_session.specs.declared.session.Session.{Session};
ghost use Rattle.script_runner.specs.Chains.{LivesInChain};
ghost use Rattle.script_runner.specs.Doing.{DoesAll};
ghost use Rattle.script_runner.specs.Issued.{TellsItsLists, TellsLawfully};
ghost use Rattle.script_runner.specs.Story.{Exchange};

use channel_port::ChannelPort;
use nv_session::Wires;

/// **The answers of a script are those of a chain of lives.** A format or a restore that is told begins a life, each line is the
/// events of its call, and a restore ends the life by a stop that leaves the device's bytes. The lives since the last format are
/// a chain of the theorem `survives_any_stop`, so each restore's answer tells of the image that it speaks of; and stopped at any
/// moment since its life began, within a line or a device write too, the script's session leaves a chain as well.
pub fn scripts_survive<K: ChannelPort, A: Wires<K>>()
    ensures { (story : List Exchange) (first last : Session K A K.ChannelPort A.Wires)
        → DoesAll story first last → LivesInChain story first last }
{}

/// **The commands that a script tells are its channels' lists.** Behind a format or a restore, and lines by which no channel is worked
/// untold and none is drained, each channel of the life that runs has issued the commands that the answers tell of it, in turn, and no
/// other. So the commands that are told of a channel keep the timing rules of the profile, and `first_fault` of them is none, where the
/// channels' lists do, as those behind `do_lines` (`IsRun`: `rules`).
pub fn scripts_tell_lists<K: ChannelPort, A: Wires<K>>()
    ensures lists { TellsItsLists K A K.ChannelPort A.Wires }
    ensures lawful { TellsLawfully K A K.ChannelPort A.Wires }
{}
