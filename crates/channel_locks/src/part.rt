// The part of a channel, and what is asked of it.
ghost use Rattle.std.specs.Prelude.{◌≡◌, ◌==◌, ◌<◌, ◌≤◌, ℕ, List, [], length, true, false, None};
ghost use Rattle.channel_log.specs.Log.{LogNote, credits_of, log_tells};
ghost use Rattle.channel_port.specs.View.{is_full_of_reads};
ghost use Rattle.channel_port.specs.Waits.{nothing};
ghost use Rattle.channel_port.specs.declared.stage.Stage.TheVariants.{OnMains};

use channel_port::ChannelPort;
use ddr4_timing::place::Place;

/// A channel's port and the credits that are out on the channel, one for each write that it was given, until it is taken back. The
/// returned ones are those beyond the writes that wait.
#[derive(Drop)]
pub struct Part<K: ChannelPort> {
    pub(crate) channel: u64,
    pub(crate) port: K,
    pub(crate) credits: u64,
    /// Whether mains were lost.
    pub(crate) ended: bool,
    ghost here: { channel ≡ (K.view port).number },
    ghost covered: { length (K.view port).waits.writes ≤ credits },
    ghost mains: { ended ≡ false → (K.view port).stage ≡ OnMains },
}

impl<K: ChannelPort> Part<K> {
    ghost use Rattle.channel_locks.specs.Stands.{PartStands, PortStands, queue_of, returned_of};

    /// The part of a channel with this port, which is on mains unless they were lost. No credit is a returned one: as many are out
    /// as writes wait in the port.
    pub fn of(channel: u64, port: K, ended: bool) -> Part<K>
        requires here { channel ≡ (K.view port).number }
        requires mains { ended ≡ false → (K.view port).stage ≡ OnMains }
        ensures channel { result.channel ≡ channel }
        ensures port { result.port ≡ port }
        ensures ended { result.ended ≡ ended }
        ensures credits { result.credits ≡ length (K.view port).waits.writes }
        ensures stands { (base : List (List ℕ)) (log : List LogNote)
            → PortStands K.ChannelPort port channel base (log_tells log)
            → credits_of log ≡ length (K.view port).waits.writes → ended ≡ (log_tells log).ended
            → PartStands K.ChannelPort result channel base log }
        ensures begins { (base : List (List ℕ)) → K.carries port base []
            → (K.view port).waits ≡ nothing → (K.view port).hold ≡ None → ended ≡ false
            → PartStands K.ChannelPort result channel base [] }
    {
        let credits = port.pending() as u64;
        Part {
            channel,
            port,
            credits,
            ended,
        }
    }

    /// The port again, once no returned credit is left.
    pub fn into_port(self) -> K
        requires { returned_of K.ChannelPort self ≡ 0 }
        ensures port { result ≡ self.port }
        ensures stands { (channel : ℕ) (base : List (List ℕ)) (log : List LogNote)
            → PartStands K.ChannelPort self channel base log
            → PortStands K.ChannelPort result channel base (log_tells log) }
        ensures credits { (channel : ℕ) (base : List (List ℕ)) (log : List LogNote)
            → PartStands K.ChannelPort self channel base log
            → credits_of log ≡ length (K.view result).waits.writes }
    {
        let Part { port, .. } = self;
        port
    }

    /// Where a line lies, on this channel or on another.
    pub fn place(&self, line: u64) -> Place
        requires { line < (K.view self.now.port).lines }
        ensures { result ≡ (K.view self.now.port).place_of line }
    {
        self.port.place(line)
    }

    /// How many writes wait, at most 64.
    pub fn pending(&self) -> u64
        ensures is { result ≡ length (queue_of K.ChannelPort self.now) }
        ensures most { result ≤ 64 }
    {
        self.port.pending() as u64
    }

    /// How many of its credits are returned ones: their writes wait no more, and they weren't taken back yet.
    pub fn returned(&self) -> u64
        ensures { result ≡ returned_of K.ChannelPort self.now }
    {
        self.credits - self.pending()
    }

    /// Whether there is no room for a further write, by the credits that are out: as many as writes may wait. It is asked once
    /// the returned ones were taken back.
    pub fn is_full(&self) -> bool
        requires { returned_of K.ChannelPort self.now ≡ 0 }
        ensures { result ≡ (self.now.credits == (K.view self.now.port).depth) }
    {
        self.port.is_full()
    }

    /// Whether there is no room for a further read.
    pub fn is_full_of_reads(&self) -> bool
        ensures { result ≡ is_full_of_reads (K.view self.now.port) }
    {
        self.port.is_full_of_reads()
    }

    /// Were mains lost?
    pub fn has_ended(&self) -> bool
        ensures { result ≡ self.now.ended }
    {
        self.ended
    }
}
