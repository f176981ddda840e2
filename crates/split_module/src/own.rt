// A channel's own steps as events of the machine.
ghost use Rattle.std.specs.Prelude.{◌≡◌, ◌≤◌, ◌++◌, [], ℕ, List};
ghost use Rattle.energy_budget.specs.Gauge.{Gauge};
ghost use Rattle.channel_log.specs.Between.{CameOf};
ghost use Rattle.channel_log.specs.Log.{IsLogOf, LogNote, log_tells};
ghost use Rattle.channel_port.specs.Waits.{Waits};
ghost use Rattle.nv_machine.specs.Guard.{IsGuarded};
ghost use Rattle.nv_machine.specs.Headline.{IsBacked, Run};
ghost use Rattle.nv_machine.specs.State.{Setup, World};
ghost use Rattle.nv_machine.specs.declared.events.Event.{Event};
ghost use Rattle.nv_machine.specs.declared.events.Reply.{Reply};
ghost use Rattle.split_module.specs.OwnEvents.{ComesOfOwn, LeavesCandidates, looked, settled_to};
ghost use Rattle.split_module.specs.Telling.{AreLogsOf, AreOwn};

/// What a channel did under its own lock alone are events of the machine. Where what waits on it by now came by its own steps of what
/// its log tells, commands of the channel and collected reads lead to the machine in which this waits (`events`). The logs tell of
/// that machine once this was noted (`logs`); it is guarded and backed where the one before was (`guarded`, `backed`). So a life
/// that went on to the one may go on to the other (`life`).
pub fn own_steps_are_events()
    ensures events { (setup : Setup) (world : World) (logs : List (List LogNote)) (channel : ℕ)
        (log : List LogNote) (waits : Waits) → AreLogsOf setup world.machine logs
        → IsLogOf logs channel log → CameOf channel (log_tells log) waits
        → IsGuarded world.machine → LeavesCandidates setup world
        → ComesOfOwn setup channel world
        (settled_to (looked channel log waits logs) world) }
    ensures logs { (setup : Setup) (world : World) (logs : List (List LogNote)) (channel : ℕ)
        (log : List LogNote) (waits : Waits) → AreLogsOf setup world.machine logs
        → IsLogOf logs channel log → AreOwn channel waits
        → AreLogsOf setup (settled_to (looked channel log waits logs) world).machine
        (looked channel log waits logs) }
    ensures guarded { (world : World) (logs : List (List LogNote)) → IsGuarded world.machine
        → IsGuarded (settled_to logs world).machine }
    ensures backed { (setup : Setup) (channel : ℕ) (world : World) (logs : List (List LogNote))
        → ComesOfOwn setup channel world (settled_to logs world)
        → IsBacked setup world.machine world.gauge
        → IsBacked setup (settled_to logs world).machine world.gauge }
    ensures life { (setup : Setup) (events : List Event) (replies : List Reply)
        (channel : ℕ) (first old new : World)
        → Run setup events replies first old → ComesOfOwn setup channel old new
        → (more : List Event) × (others : List Reply)
        × Run setup (events ++ more) (replies ++ others) first new }
{}
