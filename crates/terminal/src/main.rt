//! The gate: answers the lines of standard input on one single-issue day, each as soon as it is typed.
#![tactic(auto)]

use books::SingleIssue;
use session::{INPUT_LIMIT, Session};
use std::io::{Read, Write};

/// How much is read at a time.
const CHUNK: usize = 4_096;

fn run(rt: &HostRuntime) -> anyhow::Result<()> {
    let mut session = Session::open(rt.alloc(), SingleIssue)?;
    let mut input = rt.stdin().take(INPUT_LIMIT as u64);
    let mut output = rt.stdout();
    // Each read but the last gives a byte at least.
    for _ in 0..=INPUT_LIMIT {
        let mut chunk = [0u8; CHUNK];
        let count = input.read(&mut chunk)?;
        if count == 0 {
            break;
        }
        session.feed(&chunk[..count]);
        output.write_all(session.replies())?;
        output.flush()?;
    }
    session.close();
    output.write_all(session.replies())?;
    output.flush()?;
    Ok(())
}

fn main(rt: HostRuntime) -> anyhow::Result<()> {
    run(&rt)
}
