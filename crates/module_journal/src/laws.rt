// What a journal's calls come to in the life of a module.
ghost use Rattle.std.specs.Prelude.{◌≡◌, ◌≤◌, ◌∷◌, ◌++◌, [], IsTrue, List, length, nat_lt, take, ℕ};
ghost use Rattle.save_device.specs.Device.{DeviceState, MayLeave, present};
ghost use Rattle.energy_budget.specs.Gauge.{Gauge};
ghost use Rattle.save_image.specs.Image.{Image};
ghost use Rattle.slot_store.specs.declared.head.Head.{Head};
ghost use Rattle.journal_log.specs.Log.{Holds, Log};
ghost use Rattle.journal_log.specs.Calls.{Append, AreAllowed, Attempt, IsAllowed, Truncate, call_writes};
ghost use Rattle.journal_lines.specs.declared.index.Index.{Index};
ghost use Rattle.journal_lines.specs.Indexed.{HasRoom, IsIndexOf, IsWithin};
ghost use Rattle.nv_machine.specs.Lives.{IsLeftAt, moments_since};
ghost use Rattle.nv_machine.specs.declared.events.Event.{Event};
ghost use Rattle.nv_machine.specs.declared.events.Reply.{Reply};
ghost use Rattle.module_core.specs.declared.module.Module.{Module};
ghost use Rattle.module_core.specs.InTurn.{AnswersCalls};
ghost use Rattle.module_core.specs.Opening.{opened_with};
ghost use Rattle.module_core.specs.Stands.{Answers, Assembly, ModuleStands, assembly};
ghost use Rattle.nv_machine.specs.Rising.{accepted_in};
ghost use Rattle.module_journal.specs.Writing.{Accepts};
ghost use Rattle.module_journal.specs.declared.journal.Appended.{Appended};
ghost use Rattle.module_journal.specs.Living.{EndsKept, EndsKeptThere, EndsTold, HasAppended, HasJournaled, log_behind_all, whole_append};

use channel_port::ChannelPort;

/// A life begins with no attempts (`begins`), each call of a journal goes on with it, whether it was done or refused (`calls`), and so
/// do other calls, which accept no write (`others`). A stop then leaves what the journal promises (`ends`), at any moment of the
/// events too (`anywhere`).
pub fn journals_live<K: ChannelPort>()
    ensures begins { (found : Head) (image : Image) (log : Log) (first : Assembly K.ChannelPort)
        → ModuleStands K.ChannelPort first.it first.device (opened_with found image)
        → HasJournaled K.ChannelPort found image log [] first first }
    ensures calls { (found : Head) (image : Image) (log : Log) (attempts : List Attempt)
        (one : Attempt) (first : Assembly K.ChannelPort) (old new : Module K K.ChannelPort)
        (device : DeviceState) (gauge : Gauge)
        → HasJournaled K.ChannelPort found image log attempts first (assembly old device gauge)
        → Accepts K.ChannelPort device gauge (take one.made
        (call_writes (length image.memory) (log_behind_all image log attempts) one.call)) old new
        → HasJournaled K.ChannelPort found image log (attempts ++ one ∷ []) first
        (assembly new device gauge) }
    ensures others { (found : Head) (image : Image) (log : Log) (attempts : List Attempt)
        (first old new : Assembly K.ChannelPort) (events : List Event) (replies : List Reply)
        → HasJournaled K.ChannelPort found image log attempts first old
        → length events ≡ length replies
        → AnswersCalls K.ChannelPort events replies old new → accepted_in events replies ≡ []
        → HasJournaled K.ChannelPort found image log attempts first new }
    ensures ends { (found : Head) (image : Image) (log : Log) (attempts : List Attempt)
        (first now : Assembly K.ChannelPort) (bytes : List ℕ)
        → HasJournaled K.ChannelPort found image log attempts first now
        → Holds image.memory log → AreAllowed (length image.memory) log attempts
        → MayLeave (present now.device) bytes → EndsKept image log attempts bytes }
    ensures anywhere { (found : Head) (image : Image) (log : Log) (attempts : List Attempt)
        (first now : Assembly K.ChannelPort) (bytes : List ℕ)
        → HasJournaled K.ChannelPort found image log attempts first now
        → Holds image.memory log → AreAllowed (length image.memory) log attempts
        → IsLeftAt (moments_since first.device now.device) bytes
        → EndsKeptThere image log attempts bytes }
{}

/// A record for which `Appended::is_stored` is true, at a mark of its module or one that this told before, is among those that the
/// promise of `journals_live` calls told stored: by a stop behind these calls (`ends`) and by one within a further call (`within`). So
/// it is restored under its number, unless it was truncated, where the image is Complete or the life was honest.
pub fn stored_records_are_told<K: ChannelPort>()
    ensures ends { (found : Head) (image : Image) (log : Log) (before later : List Attempt)
        (bytes : List ℕ) (appended : Appended) (first now : Assembly K.ChannelPort)
        (mark : ℕ) (left : List ℕ)
        → HasAppended K.ChannelPort found image log before bytes appended
        → HasJournaled K.ChannelPort found image log
        (before ++ whole_append bytes ∷ later) first now
        → Holds image.memory log
        → AreAllowed (length image.memory) log (before ++ whole_append bytes ∷ later)
        → mark ≤ now.it.front.persisted
        → IsTrue (nat_lt appended.head.number mark)
        → MayLeave (present now.device) left
        → EndsTold image log before later appended.record bytes left }
    ensures within { (found : Head) (image : Image) (log : Log) (before later : List Attempt)
        (bytes : List ℕ) (appended : Appended) (first now next : Assembly K.ChannelPort)
        (event : Event) (reply : Reply) (mark : ℕ) (left : List ℕ)
        → HasAppended K.ChannelPort found image log before bytes appended
        → HasJournaled K.ChannelPort found image log
        (before ++ whole_append bytes ∷ later) first now
        → Holds image.memory log
        → AreAllowed (length image.memory) log (before ++ whole_append bytes ∷ later)
        → mark ≤ now.it.front.persisted → IsTrue (nat_lt appended.head.number mark)
        → Answers K.ChannelPort event reply now next
        → IsLeftAt (moments_since now.device next.device) left
        → EndsTold image log before later appended.record bytes left }
{}

/// What `append` and `truncate` find room and records for is allowed on the journal, as the promise asks of each call.
pub fn calls_are_allowed()
    ensures append { (index : Index) (log : Log) (bytes : List ℕ)
        → IsIndexOf index log → HasRoom index bytes → IsAllowed index.lines log (Append bytes) }
    ensures truncate { (index : Index) (log : Log) (upto : ℕ)
        → IsIndexOf index log → IsWithin index upto → IsAllowed index.lines log (Truncate upto) }
{}
