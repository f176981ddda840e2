// Which channel each line lies on.
ghost use Rattle.std.specs.Prelude.{◌≡◌, slice_index_or, IfOk};
ghost use Rattle.channel_set.specs.Set.{shape_of};
ghost use Rattle.channel_locks.specs.Lines.{channels_of_lines};

use channel_port::ChannelPort;
use channel_set::ChannelSet;
use std::alloc::{AllocError, Global};
use std::marker::Model;

/// The channel of each line, a byte a line. It is made once, and read without a lock. Contracts see the channels in line order.
#[derive(Drop)]
pub struct LineChannels {
    channels: Vec<u8>,
}

impl Model for LineChannels {
    ghost use Rattle.std.specs.Prelude.{ℕ, List};

    ghost Value = { List ℕ };

    ghost view = { λ t. t.channels.items };
}

impl LineChannels {
    /// Of a memory over these channels, which has 65,536 lines at most. It refuses only where there is no memory for the bytes.
    pub fn of<K: ChannelPort>(
        alloc: Global,
        set: &ChannelSet<K>,
    ) -> Result<LineChannels, AllocError>
        ensures { IfOk result (λ lines.
            lines ≡ channels_of_lines (shape_of K.ChannelPort set.now)) }
    {
        let count = set.lines();
        let mut channels = Vec::with_capacity(alloc, count)?;
        for line in 0..count {
            let Some(place) = set.locate(line as u64) else {
                unreachable!();
            };
            channels.push_reserved(place.channel as u8);
        }
        Ok(LineChannels { channels })
    }

    /// The channel of a line; 0 where there is no such line.
    pub fn channel_of(&self, line: u64) -> u64
        ensures { result ≡ slice_index_or self.now line 0 }
    {
        match self.channels.get(line as usize) {
            Some(channel) => *channel as u64,
            None => 0,
        }
    }
}
