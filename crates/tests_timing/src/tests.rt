// Lists of commands, profiles, places, maps and banks, worked by hand, and the scheduler on worked and on endless requests.

mod banks;
mod check;
mod choices;
mod commands;
mod lists;
mod maps;
mod profiles;
mod refreshes;
mod searches;
