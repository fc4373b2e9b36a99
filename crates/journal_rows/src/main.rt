//! Reads journals that were laid out by hand and tells what is in them: the head, what a replay puts home, the clean header behind
//! it, or the place that is bad. `checks/journal_rows.py` lays them out and works out what is to be told, from the format alone.
#![tactic(auto)]

mod journals;
mod telling;

use journals::Laid;
use std::io;
use std::io::BufRead;
use telling::tell;

fn main(rt: HostRuntime) -> io::Result<()> {
    let mut laid = Laid::new(rt.alloc());
    for line in io::BufReader::new(rt.alloc(), rt.reader())?.lines(rt.alloc()) {
        let line = line?;
        if line.as_str() == "scan" {
            match tell(rt.alloc(), &laid) {
                Ok(told) => println!(rt; "{told}")?,
                Err(_) => println!(rt; "no memory")?,
            }
        } else if laid.take(rt.alloc(), line.as_str()).is_none() {
            println!(rt; "not a line: {line}")?;
        }
    }
    Ok(())
}
