// What waits on a channel, as a note names it.
use std::marker::Brand;

/// Names what waits on a channel at a note. Each call of a program picks it.
pub trait Standing {
    ghost use Rattle.channel_port.specs.Waits.{Waits};

    ghost waits: { Waits };
}

impl Standing for Brand {
    ghost use Rattle.channel_port.specs.Waits.{nothing};

    ghost waits = { nothing };
}
