//! Runs rows of worked examples over the devices in memory: reads rows from standard input, and writes to standard
//! output for each run its replies, its status and the contents of FILE afterwards. `docs/rows.md` has the form of a
//! row.
#![tactic(auto)]

mod comparison;
mod crashes;
mod exchange;
mod image;
mod line;
mod parts;
mod report;
mod row;
mod rows;
mod runs;
mod script;
mod show;
mod side;
mod stage;

use rows::run_rows;
use std::io;

fn main(rt: HostRuntime) -> io::Result<()> {
    let text = io::read_to_string(rt.alloc(), rt.stdin())?;
    let mut report = String::new(rt.alloc());
    run_rows(rt.alloc(), &text, &mut report)?;
    print!(rt; "{report}")
}
