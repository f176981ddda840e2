// The cut: where the stored writes of a life begin.
ghost use Rattle.std.specs.Prelude.{◌≡◌, ◌+◌};

use crate::Module;
use channel_port::ChannelPort;

impl<K: ChannelPort> Module<K> {
    ghost use Rattle.module_core.specs.Stands.{IsCut, setup_of};

    /// Takes off the stored writes that the newest image holds which is known settled, and answers how many, so that as many more
    /// may be accepted. It may be called at any time, also while a save runs. It is no event of the life: nothing but the number
    /// of the first stored write has changed, and what a restore finds is the same.
    pub fn cut(&mut self) -> u64
        ensures cuts { IsCut K.ChannelPort self.old self.new }
        ensures to { self.new.front.terms.cut ≡ self.old.front.saved }
        ensures gone { self.new.front.terms.cut ≡ self.old.front.terms.cut + result }
        ensures setup { setup_of K.ChannelPort self.new ≡ setup_of K.ChannelPort self.old }
    {
        let gone = self.front.saved - self.front.terms.cut;
        self.front.terms.cut = self.front.saved;
        gone
    }

    /// How many writes the newest image holds that is known settled.
    pub fn saved(&self) -> u64
        ensures { result ≡ self.now.front.saved }
    {
        self.front.saved
    }

    /// The number of the life's first write.
    pub fn start(&self) -> u64
        ensures { result ≡ self.now.front.terms.start }
    {
        self.front.terms.start
    }

    /// The number of the first write that is stored.
    pub fn stored_from(&self) -> u64
        ensures { result ≡ self.now.front.terms.cut }
    {
        self.front.terms.cut
    }
}
