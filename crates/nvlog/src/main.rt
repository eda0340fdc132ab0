// nvlog: lays writes out in the words of a log, and reads them back.
#![tactic(auto)]

mod command;
mod lines;
mod reader;
mod session;
mod word_log;
mod writing;

use lines::Lines;
use session::Session;
use std::io::Read;

fn main(rt: HostRuntime) -> anyhow::Result<()> {
    run(&rt)
}

fn run(rt: &HostRuntime) -> anyhow::Result<()> {
    let heap = rt.alloc();
    let mut input = Vec::new(heap);
    rt.stdin().read_to_end(&mut input)?;
    let mut session = Session {
        out: &mut rt.stdout(),
        heap,
    };
    session.answer_all(Lines::new(input.as_slice()))
}
