// Which tickets reads are given.
ghost use Rattle.std.specs.Prelude.{◌≢◌, All, AllPairs, List, Some};
ghost use Rattle.channel_port.specs.Waits.{Has};
ghost use Rattle.channel_port.specs.declared.answers.Ticket.{Ticket};
ghost use Rattle.nv_machine.specs.declared.events.Event.{Event};
ghost use Rattle.nv_machine.specs.declared.events.Reply.{Reply};
ghost use Rattle.nv_machine.specs.State.{Setup, World};
ghost use Rattle.nv_machine.specs.Headline.{Run};
ghost use Rattle.nv_machine.specs.Tickets.{GivesAnother, given_ticket};

/// No two reads of a run are given the same ticket, though the first of them was collected, or lost with mains; nor is a read
/// given a ticket that another was given before the run. So a ticket stands for one read of its life.
pub fn tickets_are_new()
    ensures once { (setup : Setup) (events : List Event) (replies : List Reply) (old new : World)
        → Run setup events replies old new → AllPairs GivesAnother replies }
    ensures before { (setup : Setup) (events : List Event) (replies : List Reply)
        (old new : World) (ticket : Ticket) → Run setup events replies old new
        → Has ticket old.machine.waits.given
        → All (λ reply. given_ticket reply ≢ Some ticket) replies }
{}
