// drape: reads a spot file from standard input, builds the mesh and prints its faces, or where and why the file is faulty.
#![tactic(auto)]

use std::io::{Read, Write};
use text::draping::draped;

// Fills the buffer from the input, as far as it goes; answers how many bytes there were. Each read offers all the room
// that is left: `read_to_end` offers 512 bytes at first, and where the input comes in packets the rest of one would be lost.
fn read_some(input: &mut impl Read, buffer: &mut [u8]) -> anyhow::Result<usize> {
    let mut at = 0;
    while at < buffer.len() {
        let n = input.read(&mut buffer[at..])?;
        if n == 0 {
            break;
        }
        at += n;
    }
    Ok(at)
}

fn run(rt: &HostRuntime) -> anyhow::Result<()> {
    let heap = rt.alloc();
    let mut input = vec![in heap; 0u8; 32768]?;
    let length = read_some(&mut rt.stdin(), &mut input)?;
    input.truncate(length);
    rt.stdout().write_all(&draped(heap, &input)?)?;
    Ok(())
}

fn main(rt: HostRuntime) -> anyhow::Result<()> {
    run(&rt)
}
