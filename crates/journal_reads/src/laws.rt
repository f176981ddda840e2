// What a read of a record is in the life of a journal.
ghost use Rattle.std.specs.Prelude.{◌≡◌, ◌-◌, ◌<◌, ◌≤◌, ℕ, List, length, slice_get, Some};
ghost use Rattle.save_image.specs.Image.{Image};
ghost use Rattle.slot_store.specs.declared.head.Head.{Head};
ghost use Rattle.journal_log.specs.Log.{Holds, Log};
ghost use Rattle.journal_log.specs.Calls.{AreAllowed, Attempt};
ghost use Rattle.journal_lines.specs.declared.index.Index.{Index};
ghost use Rattle.journal_lines.specs.Indexed.{IsIndexOf};
ghost use Rattle.module_core.specs.Stands.{Assembly, setup_of};
ghost use Rattle.module_journal.specs.Living.{HasJournaled, log_behind_all};
ghost use Rattle.nv_session.specs.Coming.{Comes};
ghost use Rattle.journal_reads.specs.declared.reading.NotRead.{NotRead};
ghost use Rattle.journal_reads.specs.Reading.{IsNotRead, ReadsRecord};

use channel_port::ChannelPort;

/// In a life whose writes are a journal's, the record that is read is the one with this number in the journal behind all its calls,
/// those that were refused too (`record`). The life goes on by the read with the same calls (`read`), and by one that came to nothing
/// (`not_read`); so what `journals_live` says of a stop holds behind reads as before.
pub fn journals_are_read<K: ChannelPort>()
    ensures record { (found : Head) (image : Image) (log : Log) (attempts : List Attempt)
        (index : Index) (number : ℕ) (bytes : List ℕ) (first old new : Assembly K.ChannelPort)
        → HasJournaled K.ChannelPort found image log attempts first old
        → Holds image.memory log → AreAllowed (length image.memory) log attempts
        → IsIndexOf index (log_behind_all image log attempts) → index.lines ≡ length image.memory
        → Comes K.ChannelPort (ReadsRecord index number bytes) old new
        → slice_get (log_behind_all image log attempts).records
        (number - (log_behind_all image log attempts).gone) ≡ Some bytes }
    ensures read { (found : Head) (image : Image) (log : Log) (attempts : List Attempt)
        (index : Index) (number : ℕ) (bytes : List ℕ) (first old new : Assembly K.ChannelPort)
        → HasJournaled K.ChannelPort found image log attempts first old
        → Comes K.ChannelPort (ReadsRecord index number bytes) old new
        → setup_of K.ChannelPort new.it ≡ setup_of K.ChannelPort old.it
        → HasJournaled K.ChannelPort found image log attempts first new }
    ensures not_read { (found : Head) (image : Image) (log : Log) (attempts : List Attempt)
        (reason : NotRead) (first old new : Assembly K.ChannelPort)
        → HasJournaled K.ChannelPort found image log attempts first old
        → Comes K.ChannelPort (IsNotRead (setup_of K.ChannelPort old.it) reason) old new
        → setup_of K.ChannelPort new.it ≡ setup_of K.ChannelPort old.it
        → HasJournaled K.ChannelPort found image log attempts first new }
{}
