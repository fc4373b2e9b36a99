//! Rows of calls of what a node keeps in memory, each with the answer that a plain model gives (checks/kept_rows.py).
//! It prints how many rows there are, and the number of the first that goes otherwise, if one does.
#![tactic(auto)]

mod rows;

use rows::{Kept, Row};
use std::io;
use std::io::BufRead;

fn row_of(line: &str) -> Row {
    let mut row = [0; 8];
    for (place, word) in row.iter_mut().zip(line.split(' ')) {
        *place = word.parse::<u64>().unwrap_or(u64::MAX);
    }
    row
}

fn main(rt: HostRuntime) -> io::Result<()> {
    let mut kept = match Kept::new(rt.alloc()) {
        Some(kept) => kept,
        None => return println!(rt; "no memory"),
    };
    let mut count = 0u64;
    for line in io::BufReader::new(rt.alloc(), rt.reader())?.lines(rt.alloc()) {
        let line = line?;
        let row = row_of(line.as_str());
        count = count.saturating_add(1);
        if !kept.play(&row) {
            return println!(rt; "row {count} goes otherwise: {line}");
        }
    }
    println!(rt; "{count} rows go as the model says")
}
