// What a read that waits is lent.
use channel_port::{Collected, Ticket};

/// What a read that waits is lent: a look for what there is for its ticket, and what it does between two looks.
pub trait Lookout {
    ghost use Rattle.channel_port.specs.declared.answers.Ticket.{Ticket};
    ghost use Rattle.channel_port.specs.declared.answers.Collected.{Collected};

    /// A look for a ticket came to this.
    ghost looks: { Ticket → Collected → Self → Self → Type 0 };

    ghost waits: { Self → Self → Type 0 };

    /// Looks once.
    fn look(&mut self, ticket: Ticket) -> Collected
        ensures { looks ticket result self.old self.new };

    /// Gives way before the next look.
    fn wait(&mut self)
        ensures { waits self.old self.new };
}
