// cases: for each name among the arguments, what drape prints for the spot file NAME.in.
#![tactic(auto)]

use std::io::Write;
use std::{env, fs};
use text::draping::draped;

fn show(rt: &HostRuntime, name: &str) -> anyhow::Result<()> {
    let heap = rt.alloc();
    let mut text = fs::read(rt, format!(in heap; "{name}.in")?)?;
    text.truncate(32768);
    println!(rt; "== {name}")?;
    rt.stdout().write_all(&draped(heap, &text)?)?;
    Ok(())
}

fn run(rt: &HostRuntime) -> anyhow::Result<()> {
    for name in env::args(rt)?.skip(1) {
        show(rt, name.as_str())?;
    }
    Ok(())
}

fn main(rt: HostRuntime) -> anyhow::Result<()> {
    run(&rt)
}

#[cfg(test)]
mod tests;
