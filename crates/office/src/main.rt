// The office: commands on standard input, an answer a line on standard output.
#![tactic(auto)]

use std::io::{Read, Write};

mod command;
mod number;
mod reply;
mod script;
#[cfg(test)]
mod tests;

fn main(rt: HostRuntime) -> anyhow::Result<()> {
    serve(&rt)
}

fn serve(rt: &HostRuntime) -> anyhow::Result<()> {
    let mut input = Vec::new(rt.alloc());
    rt.stdin().read_to_end(&mut input)?;
    let answers = script::answered(rt.alloc(), input.as_slice())?;
    rt.stdout().write_all(answers.as_bytes())?;
    Ok(())
}
