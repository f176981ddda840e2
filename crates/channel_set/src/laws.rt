// What the channels carry, together.
ghost use Rattle.std.specs.Prelude.{◌≡◌, ◌+◌, ℕ, List, length};
ghost use Rattle.line_memory.specs.declared.Write.{Write};
ghost use Rattle.line_memory.specs.Memory.{memory_at};
ghost use Rattle.channel_port.specs.Carried.{NoneBelow};
ghost use Rattle.channel_set.specs.declared.set.ChannelSet.{ChannelSet};
ghost use Rattle.channel_set.specs.Set.{view_of};
ghost use Rattle.channel_set.specs.Carrying.{CarriesAll, WaitsFrom};

use channel_port::ChannelPort;

/// The arrays are the memory after the first n writes, where none of these waits and all others do.
pub fn arrays_settle<K: ChannelPort>()
    ensures { (channels : ChannelSet K K.ChannelPort) (base : List (List ℕ)) (start : ℕ)
        (writes : List Write) (n : ℕ) → CarriesAll K.ChannelPort channels base start writes
        → NoneBelow n (view_of K.ChannelPort channels).waits.writes
        → WaitsFrom n (start + length writes) (view_of K.ChannelPort channels).waits.writes
        → (view_of K.ChannelPort channels).array ≡ memory_at base start writes n }
{}
