//! Plays calls on a master's table: a row of calls, whose answers it prints, and ten thousand lists of calls that it draws by
//! seed, of which it prints a checksum of the answers for each hundred. `checks/lock_rows.py` works out what it has to print.
#![tactic(auto)]

mod play;

use play::{hundred, row};
use std::io;

fn main(rt: HostRuntime) -> io::Result<()> {
    match row(rt.alloc()) {
        Err(_) => rt.println("no memory")?,
        Ok(text) => rt.print(text)?,
    }
    for place in 0..100u64 {
        match hundred(rt.alloc(), place) {
            Err(_) => rt.println("no memory")?,
            Ok(sum) => println!(rt; "{sum:08x}")?,
        }
    }
    Ok(())
}
