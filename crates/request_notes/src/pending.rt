// Requests that wait for their commands.
ghost use Rattle.std.specs.Prelude.{◌≡◌};
ghost use Rattle.request_notes.specs.Requests.{column_of, act_of, pre_of};

use ddr4_timing::command::Command;
use ddr4_timing::place::Place;

/// What a request wants of its line.
#[derive(Clone, Copy, Debug, PartialEq, Eq)]
pub enum Kind {
    Read,
    Write,
}

/// A request that waits for its RD or WR. A list of them stands in order of arrival.
#[derive(Clone, Copy, Debug, PartialEq, Eq)]
pub struct Pending {
    /// Its place in the order of arrival on the channel.
    pub seq: u64,
    pub place: Place,
    pub line: u64,
    pub kind: Kind,
    /// How many writes were accepted before it; so it is a write's own number.
    pub number: u64,
    /// Whether it is to wait for now.
    pub held: bool,
}

impl Pending {
    /// The RD or WR that serves the request.
    pub fn column(&self) -> Command
        ensures { result ≡ column_of self.now.kind self.now.place }
    {
        let (at, column) = (self.place.bank_address(), self.place.column);
        match self.kind {
            Kind::Read => Command::Rd { at, column },
            Kind::Write => Command::Wr { at, column },
        }
    }

    /// The ACT that opens the request's row.
    pub fn act(&self) -> Command
        ensures { result ≡ act_of self.now.place }
    {
        Command::Act {
            at: self.place.bank_address(),
            row: self.place.row,
        }
    }

    /// The PRE that closes the request's bank.
    pub fn pre(&self) -> Command
        ensures { result ≡ pre_of self.now.place }
    {
        let at = self.place.bank_address();
        Command::Pre { at }
    }
}
