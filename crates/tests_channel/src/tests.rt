// Channel 0 of a profile and its drains, worked by hand and busy for long, and its queue of writes alone.

mod at_once;
mod busy;
mod check;
mod fixture;
mod last_start;
mod picks;
mod plain;
mod profiles;
mod queues;
mod refreshes;
mod requests;
mod run;
mod worked;
