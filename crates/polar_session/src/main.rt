// Reads a session from standard input and a shelf of orders from the folder it runs in, and prints what the session answers.
#![tactic(auto)]

use session::transcript;
use std::io::{ErrorKind, Read, Write};
use std::{fs, io};

// One byte more than a session may have, which is enough to refuse it.
const MOST: u64 = 65537;

fn read_session(rt: &HostRuntime) -> io::Result<Vec<u8>> {
    let mut session = Vec::new(rt.alloc());
    rt.stdin().take(MOST).read_to_end(&mut session)?;
    Ok(session)
}

// Where there is no such file, the shelf is empty; one that cannot be read is an error.
fn read_shelf(rt: &HostRuntime) -> io::Result<Vec<u8>> {
    match fs::read(rt, "orders.shelf") {
        Err(error) if error.kind() == ErrorKind::NotFound => Ok(Vec::new(rt.alloc())),
        shelf => shelf,
    }
}

fn run(rt: &HostRuntime) -> anyhow::Result<()> {
    let session = read_session(rt)?;
    let shelf = read_shelf(rt)?;
    let text = transcript(rt.alloc(), session.as_slice(), shelf.as_slice())?;
    let mut out = rt.stdout();
    out.write_all(text.as_bytes())?;
    out.flush()?;
    Ok(())
}

fn main(rt: HostRuntime) -> anyhow::Result<()> {
    run(&rt)
}
