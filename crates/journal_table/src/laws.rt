// What a table's calls come to in the life of a module.
ghost use Rattle.std.specs.Prelude.{◌≡◌, ◌≤◌, ◌∷◌, ◌++◌, [], IsTrue, List, length, map, nat_lt, take, true, ℕ};
ghost use Rattle.save_device.specs.Device.{DeviceState, MayLeave, present};
ghost use Rattle.energy_budget.specs.Gauge.{Gauge};
ghost use Rattle.save_image.specs.Image.{Image};
ghost use Rattle.slot_store.specs.declared.head.Head.{Head};
ghost use Rattle.journal_log.specs.Log.{Holds, Log};
ghost use Rattle.journal_log.specs.Calls.{IsAllowed, call_writes, is_done};
ghost use Rattle.journal_lines.specs.declared.index.Index.{Index};
ghost use Rattle.nv_machine.specs.Lives.{IsLeftAt, moments_since};
ghost use Rattle.nv_machine.specs.Rising.{accepted_in};
ghost use Rattle.nv_machine.specs.declared.events.Event.{Event};
ghost use Rattle.nv_machine.specs.declared.events.Reply.{Reply};
ghost use Rattle.module_core.specs.declared.module.Module.{Module};
ghost use Rattle.module_core.specs.InTurn.{AnswersCalls};
ghost use Rattle.module_core.specs.Opening.{opened_with};
ghost use Rattle.module_core.specs.Stands.{Assembly, ModuleStands, assembly};
ghost use Rattle.module_journal.specs.declared.journal.Appended.{Appended};
ghost use Rattle.module_journal.specs.Writing.{Accepts};
ghost use Rattle.module_journal.specs.Living.{HasAppended};
ghost use Rattle.table_log.specs.Changes.{Change, record_of};
ghost use Rattle.table_log.specs.Tables.{Changes, IsLawful, IsTable, Table, journal_call};
ghost use Rattle.table_log.specs.Survival.{TableAttempt, journal_attempt};
ghost use Rattle.journal_table.specs.Calling.{HasCalled, log_behind_calls, table_behind_calls, whole_call};
ghost use Rattle.journal_table.specs.Living.{EndsTable, EndsTableThere, EndsTableTold, HasTabled};

use channel_port::ChannelPort;

/// A life begins with no calls of a table (`begins`), each of them goes on with it, whether it was done or refused (`calls`), a compaction
/// too (`upkeep`), and so do calls that accept no write (`others`). A stop then leaves what a table promises (`ends`), at any moment of the
/// events too (`anywhere`), and a change for whose record `Appended::is_stored` is true at a mark of the module is told stored (`told`).
pub fn tables_live<K: ChannelPort>()
    ensures begins { (found : Head) (image : Image) (log : Log) (table : Table)
        (first : Assembly K.ChannelPort)
        → ModuleStands K.ChannelPort first.it first.device (opened_with found image)
        → HasTabled K.ChannelPort found image log table [] first first }
    ensures calls { (found : Head) (image : Image) (log : Log) (table : Table)
        (attempts : List TableAttempt) (one : TableAttempt) (first : Assembly K.ChannelPort)
        (old new : Module K K.ChannelPort) (device : DeviceState) (gauge : Gauge)
        → HasTabled K.ChannelPort found image log table attempts first (assembly old device gauge)
        → let before = log_behind_calls (length image.memory) log attempts in
        Accepts K.ChannelPort device gauge
        (take one.made (call_writes (length image.memory) before (journal_call one.call))) old new
        → IsAllowed (length image.memory) before (journal_call one.call)
        → (is_done (journal_attempt one) ≡ true
        → IsLawful (table_behind_calls table attempts) one.call)
        → HasTabled K.ChannelPort found image log table (attempts ++ one ∷ []) first
        (assembly new device gauge) }
    ensures upkeep { (found : Head) (image : Image) (log : Log) (table : Table)
        (attempts more : List TableAttempt) (first : Assembly K.ChannelPort) (index : Index)
        (old new : Module K K.ChannelPort) (device : DeviceState) (gauge : Gauge)
        → HasTabled K.ChannelPort found image log table attempts first (assembly old device gauge)
        → HasCalled K.ChannelPort (length image.memory) more
        (log_behind_calls (length image.memory) log attempts)
        (table_behind_calls table attempts) index old new
        → HasTabled K.ChannelPort found image log table (attempts ++ more) first
        (assembly new device gauge) }
    ensures others { (found : Head) (image : Image) (log : Log) (table : Table)
        (attempts : List TableAttempt) (first old new : Assembly K.ChannelPort)
        (events : List Event) (replies : List Reply)
        → HasTabled K.ChannelPort found image log table attempts first old
        → length events ≡ length replies
        → AnswersCalls K.ChannelPort events replies old new → accepted_in events replies ≡ []
        → HasTabled K.ChannelPort found image log table attempts first new }
    ensures ends { (found : Head) (image : Image) (log : Log) (table : Table)
        (attempts : List TableAttempt) (first now : Assembly K.ChannelPort) (bytes : List ℕ)
        → HasTabled K.ChannelPort found image log table attempts first now
        → Holds image.memory log → IsTable log table
        → MayLeave (present now.device) bytes → EndsTable image table attempts bytes }
    ensures anywhere { (found : Head) (image : Image) (log : Log) (table : Table)
        (attempts : List TableAttempt) (first now : Assembly K.ChannelPort) (bytes : List ℕ)
        → HasTabled K.ChannelPort found image log table attempts first now
        → Holds image.memory log → IsTable log table
        → IsLeftAt (moments_since first.device now.device) bytes
        → EndsTableThere image table attempts bytes }
    ensures told { (found : Head) (image : Image) (log : Log) (table : Table)
        (before later : List TableAttempt) (change : Change) (appended : Appended)
        (first now : Assembly K.ChannelPort) (mark : ℕ) (bytes : List ℕ)
        → HasAppended K.ChannelPort found image log (map journal_attempt before)
        (record_of change) appended
        → HasTabled K.ChannelPort found image log table
        ((before ++ whole_call (Changes change) ∷ []) ++ later) first now
        → Holds image.memory log → IsTable log table
        → mark ≤ now.it.front.persisted → IsTrue (nat_lt appended.head.number mark)
        → MayLeave (present now.device) bytes
        → EndsTableTold image table (before ++ whole_call (Changes change) ∷ []) later bytes }
{}
