// What a module asks of its channels.
ghost use Rattle.std.specs.Prelude.{◌≡◌, ◌==◌, ◌+◌, ◌*◌, ◌<◌, ◌≤◌, length, nat_lt, slice_get};
ghost use Rattle.std.specs.List.{list_any};
ghost use Rattle.std.specs.Option.{option_map};
ghost use Rattle.save_image.specs.Body.{page_of};
ghost use Rattle.save_image.specs.declared.page.TheConstants.{PAGE_LINES};
ghost use Rattle.channel_port.specs.Waits.{reads_on, writes_on};

use crate::ChannelSet;
use channel_port::ChannelPort;
use line_memory::{LINE_BYTES, Line};
use save_image::{PAGE_BYTES, PAGE_LINES, page_bytes};

impl<K: ChannelPort> ChannelSet<K> {
    ghost use Rattle.channel_set.specs.Ports.{stored_in};
    ghost use Rattle.channel_set.specs.Set.{shape_of, view_of};

    /// The port of a channel, to be looked at.
    pub fn port(&self, channel: u64) -> Option<&K>
        ensures { option_map (λ port. port.now) result ≡ slice_get self.now.ports.items channel }
    {
        self.ports.get(channel as usize)
    }

    /// How many writes wait, at most 512. It costs the number of channels.
    pub fn pending(&self) -> u64
        ensures is { result ≡ length (view_of K.ChannelPort self.now).waits.writes }
        ensures most { result ≤ 512 }
    {
        let mut pending = 0;
        for port in self.ports.iter() {
            pending += port.pending() as u64;
        }
        pending
    }

    /// Whether a channel has no room for a further write.
    pub fn is_full(&self, channel: u64) -> bool
        requires { channel < (shape_of K.ChannelPort self.now).channels }
        ensures { result ≡ (writes_on channel (view_of K.ChannelPort self.now).waits.writes
            == (shape_of K.ChannelPort self.now).depth) }
    {
        self.ports[channel as usize].is_full()
    }

    /// Whether a channel has no room for a further read.
    pub fn is_full_of_reads(&self, channel: u64) -> bool
        requires { channel < (shape_of K.ChannelPort self.now).channels }
        ensures { result ≡ (reads_on channel (view_of K.ChannelPort self.now).waits.reads
            == (shape_of K.ChannelPort self.now).reads) }
    {
        self.ports[channel as usize].is_full_of_reads()
    }

    /// Whether a write below this number waits. It costs the number of writes that wait.
    pub fn has_below(&self, number: u64) -> bool
        ensures { result ≡ list_any (λ w. nat_lt w.number number)
            (view_of K.ChannelPort self.now).waits.writes }
    {
        self.ports.iter().any(|port| port.has_below(number))
    }

    /// A page of the arrays: 64 lines, in line order, without the writes that wait.
    pub fn page(&self, page: usize) -> [u8; PAGE_BYTES]
        requires { PAGE_LINES * (page + 1) ≤ (shape_of K.ChannelPort self.now).lines }
        ensures { result ≡ page_of page (view_of K.ChannelPort self.now).array }
    {
        let mut lines = [[0; LINE_BYTES]; PAGE_LINES];
        for (index, bytes) in lines.iter_mut().enumerate() {
            *bytes = self.stored((PAGE_LINES * page + index) as u64);
        }
        *page_bytes(&lines, 0)
    }

    // A line of the arrays, without the writes that wait.
    fn stored(&self, line: u64) -> Line
        requires { line < (shape_of K.ChannelPort self.now).lines }
        ensures { result ≡ stored_in K.ChannelPort self.now.ports.items line }
    {
        let place = self.ports[0].place(line);
        self.ports[place.channel as usize].stored(line, place)
    }
}
