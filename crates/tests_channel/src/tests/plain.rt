// What a drain issues, reckoned from the list of all commands before it: each step of it begins where every bank and rank
// has rested, so only the gaps within one bank's cycle count.
use ddr4_timing::command::{Command, Stamped};
use ddr4_timing::place::Place;
use ddr4_timing::timing::{Checked, Timing};
use energy_budget::CostNumbers;
use std::process::Abort;

/// The commands so far, and the clock from which the next may go.
#[derive(Drop)]
pub struct Plain {
    timing: Timing,
    ranks: u64,
    list: Vec<Stamped>,
    clock: u64,
}

impl Plain {
    pub(crate) fn new(checked: &Checked, list: Vec<Stamped>) -> Plain {
        let clock = list.last().map_or(0, |last| last.clock.saturating_add(1));
        Plain {
            timing: checked.timing,
            ranks: checked.geometry.ranks,
            list,
            clock,
        }
    }

    fn send<R: Abort>(&mut self, rt: &R, cmd: Command, clock: u64) {
        self.clock = clock.saturating_add(1);
        self.list.push(Stamped { clock, cmd }).expect(rt, "memory");
    }

    // How many clocks a command keeps its rank from a precharge of all banks.
    fn row_gap(&self, cmd: &Command) -> u64 {
        match *cmd {
            Command::Act { .. } => self.timing.t_ras,
            Command::Rd { .. } => self.timing.t_rtp,
            Command::Wr { .. } => self.write_gap(),
            _ => 0,
        }
    }

    // From a WR to the precharge of its bank.
    fn write_gap(&self) -> u64 {
        let burst = self.timing.cwl.saturating_add(4);
        burst.saturating_add(self.timing.t_wr)
    }

    // How many clocks a bank or rank rests behind a command.
    fn rest_gap(&self, cmd: &Command) -> u64 {
        match *cmd {
            Command::Pre { .. } | Command::PreAll { .. } => self.timing.t_rp,
            Command::Ref { .. } => self.timing.t_rfc,
            _ => 0,
        }
    }

    // Waits until each bank and rank has rested.
    fn rest(&mut self) {
        let mut clock = self.clock;
        for command in self.list.iter() {
            let gap = self.rest_gap(&command.cmd);
            clock = clock.max(command.clock.saturating_add(gap));
        }
        self.clock = clock;
    }

    // How many banks of the rank are open.
    fn open_banks(&self, rank: u64) -> u64 {
        let mut open = 0_u64;
        for command in self.list.iter() {
            if command.cmd.rank() == rank {
                open = match command.cmd {
                    Command::Act { .. } => open.saturating_add(1),
                    Command::Pre { .. } => open.saturating_sub(1),
                    Command::PreAll { .. } => 0,
                    _ => open,
                };
            }
        }
        open
    }

    // The first clock at which a precharge of the whole rank may go.
    fn close_clock(&self, rank: u64) -> u64 {
        let mut clock = self.clock;
        for command in self.list.iter() {
            if command.cmd.rank() == rank {
                let gap = self.row_gap(&command.cmd);
                clock = clock.max(command.clock.saturating_add(gap));
            }
        }
        clock
    }

    // Whether the rank owes a REF at the clock.
    fn owes(&self, rank: u64, clock: u64) -> bool {
        let mut refreshes = 0_u64;
        for command in self.list.iter() {
            if command.cmd == (Command::Ref { rank }) {
                refreshes = refreshes.saturating_add(1);
            }
        }
        clock.checked_div(self.timing.t_refi).unwrap_or(0) > refreshes
    }

    fn close<R: Abort>(&mut self, rt: &R) {
        for rank in 0..self.ranks {
            if self.open_banks(rank) > 0 {
                let clock = self.close_clock(rank);
                self.send(rt, Command::PreAll { rank }, clock);
            }
        }
        self.rest();
    }

    fn refresh<R: Abort>(&mut self, rt: &R) {
        let start = self.clock;
        for rank in 0..self.ranks {
            if self.owes(rank, start) {
                let clock = self.clock;
                self.send(rt, Command::Ref { rank }, clock);
            }
        }
        self.rest();
    }

    fn enter<R: Abort>(&mut self, rt: &R, place: &Place) {
        self.refresh(rt);
        let at = place.bank_address();
        let row = place.row;
        let column = place.column;
        let opened = self.clock;
        let written = opened.saturating_add(self.timing.t_rcd);
        let closed = written.saturating_add(self.write_gap());
        self.send(rt, Command::Act { at, row }, opened);
        self.send(rt, Command::Wr { at, column }, written);
        self.send(
            rt,
            Command::Pre { at },
            closed.max(opened.saturating_add(self.timing.t_ras)),
        );
        self.rest();
    }

    /// All commands, with those of the drain of writes at these places.
    pub(crate) fn drained<R: Abort>(mut self, rt: &R, places: &[Place]) -> Vec<Stamped> {
        self.close(rt);
        for place in places {
            self.enter(rt, place);
        }
        for rank in 0..self.ranks {
            let clock = self.clock;
            self.send(rt, Command::Sre { rank }, clock);
        }
        self.list
    }
}

/// What commands and clocks cost.
pub(crate) fn spent(numbers: &CostNumbers, commands: &[Stamped], clocks: u64) -> u64 {
    let mut cost = numbers.e_clk.saturating_mul(clocks);
    for command in commands {
        cost = cost.saturating_add(numbers.command_cost(&command.cmd));
    }
    cost
}
