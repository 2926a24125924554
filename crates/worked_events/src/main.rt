//! Runs scripts on a cell of a few messages, and prints of each what it prints, its fault, and the cell's first events. So the order in
//! which messages come and nodes tick is compared with what the language says: lowest number first, servers, master and clients in turn.
//!
//! A script of `scripts.txt` stands behind a line with the numbers of its cell's servers and clients.
#![tactic(auto)]

mod events;
mod fake;

use crate::events::write_event;
use crate::fake::FakeCell;
use anyhow::{Context, Result};
use cell_simulator::run::run_lines;
use cell_simulator::simulator::Simulator;
use std::alloc::Global;
use std::fs;
use std::io::Write;

/// Between two scripts.
const NEXT_SCRIPT: &str = "====\n";

/// A cell with so many servers and clients, as in `3 2`.
fn cell_of(alloc: Global, counts: &str) -> Result<FakeCell> {
    let (servers, clients) = counts.split_once(' ').context("a count is missing")?;
    Ok(FakeCell::new(alloc, servers.parse()?, clients.parse()?))
}

/// What a script prints, its fault, and a line of events.
fn outcome_of(alloc: Global, script: &str) -> Result<Vec<u8>> {
    let (counts, lines) = script.split_once('\n').context("a script has no cell")?;
    let mut simulator = Simulator::new(alloc, cell_of(alloc, counts)?);
    let mut reader = lines.as_bytes();
    let mut printed = Vec::new(alloc);
    if let Err(fault) = run_lines(alloc, &mut simulator, &mut reader, &mut printed) {
        writeln!(printed, "{fault}")?;
    }
    for event in simulator.cell.events.as_slice() {
        write_event(&mut printed, event)?;
    }
    Ok(printed)
}

fn main(rt: HostRuntime) -> Result<()> {
    let scripts = fs::read_to_string(&rt, "scripts.txt")?;
    for script in scripts.split(NEXT_SCRIPT) {
        let outcome = outcome_of(rt.alloc(), script)?;
        println!(rt; "{}", str::from_utf8(outcome.as_slice())?)?;
    }
    Ok(())
}
