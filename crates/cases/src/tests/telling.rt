// What is written of a mesh and of a fault, and that a short buffer stays as it is.
use super::site::*;
use mesh::Refusal;
use std::alloc::Global;
use std::process::Abort;
use std::test::*;
use text::Fault;
use text::draping::draped;
use text::report::{fault_line, report};

// Checks that a buffer holds this text and then 7s.
fn holds(rt: &impl Abort, heap: Global, buffer: &[u8], text: &str) -> Result<(), Fail> {
    let mut bytes = text.as_bytes().to_vec(heap)?;
    bytes.resize(buffer.len(), 7)?;
    assert_eq!(rt; buffer, bytes.as_slice());
    Ok(())
}

// Checks a call that writes into a buffer of so many 7s: it writes this text and answers its length, or is refused by this number and writes nothing.
fn writes<F: FnOnce(&mut [u8]) -> Result<usize, Refusal>>(
    rt: &impl Abort,
    heap: Global,
    length: usize,
    write: F,
    told: Result<&str, u32>,
) -> Result<(), Fail>
    requires { F.IsAlwaysCallable write }
{
    let mut buffer = vec![in heap; 7u8; length]?;
    let answer = write(&mut buffer).map_err(Refusal::number);
    assert_eq!(rt; answer, told.map(|text| text.len()));
    holds(rt, heap, &buffer, told.unwrap_or(""))
}

#[test]
fn report_needs_room(rt: HostRuntime) -> Result<(), Fail> {
    let site = Site::laid(rt.alloc(), 4, 6)?;
    let text = "a b c\n0 1 2\n0 2 3\n";
    for (length, told) in [(0, Err(14)), (17, Err(14)), (18, Ok(text)), (25, Ok(text))] {
        writes(
            &rt,
            rt.alloc(),
            length,
            |buffer| report(site.mesh(), buffer),
            told,
        )?;
    }
    Ok(())
}

#[test]
fn report_refuses_no_mesh(rt: HostRuntime) -> Result<(), Fail> {
    let site = Site::blank(rt.alloc(), 8, 30)?;
    for length in [0, 40] {
        writes(
            &rt,
            rt.alloc(),
            length,
            |buffer| report(site.mesh(), buffer),
            Err(4),
        )?;
    }
    Ok(())
}

#[test]
fn fault_line_needs_room(rt: HostRuntime) -> Result<(), Fail> {
    let fault = Fault {
        line: u32::MAX,
        field: 10,
        refusal: Refusal::Values,
    };
    let text = "line field number\n4294967295 10 13\n";
    for (length, told) in [(0, Err(14)), (34, Err(14)), (35, Ok(text)), (40, Ok(text))] {
        writes(
            &rt,
            rt.alloc(),
            length,
            |buffer| fault_line(fault, buffer),
            told,
        )?;
    }
    Ok(())
}

#[test]
fn a_file_is_told_from_blank_memory(rt: HostRuntime) -> Result<(), Fail> {
    let heap = rt.alloc();
    for (text, told) in [
        (
            "width depth sw se ne nw\n4 4 0 0 0 0\neast north height\n",
            "a b c\n0 1 2\n0 2 3\n",
        ),
        ("", "line field number\n1 0 12\n"),
    ] {
        assert_eq!(rt; draped(heap, text.as_bytes())?.as_slice(), told.as_bytes());
    }
    Ok(())
}
