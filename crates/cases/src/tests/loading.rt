// What load refuses, on which line and in which field, and what it keeps of the lines before.
use super::site::*;
use std::alloc::Global;
use std::process::Abort;
use std::test::*;
use text::Fault;

const NAMES: &str = "width depth sw se ne nw\n";

const PLAN: &str = "width depth sw se ne nw\n4 4 0 0 0 0\n";

const COLUMNS: &str = "width depth sw se ne nw\n4 4 0 0 0 0\neast north height\n";

const ONE: &str = "width depth sw se ne nw\n4 4 0 0 0 0\neast north height\n2 1 7\n";

// Line, field and number of a fault; none if the text is taken.
fn told(r: Result<u32, Fault>) -> Option<(u32, u32, u32)> {
    r.err()
        .map(|fault| (fault.line, fault.field, fault.refusal.number()))
}

// Checks that a text has this fault and leaves this state.
fn leaves(
    rt: &impl Abort,
    heap: Global,
    text: &str,
    fault: (u32, u32, u32),
    kept: &State,
) -> Result<(), Fail> {
    let mut site = Site::blank(heap, 8, 30)?;
    assert_eq!(rt; told(site.load(text.as_bytes())), Some(fault), "{}", text);
    assert_eq!(rt; &site.state()?, kept, "{}", text);
    Ok(())
}

// Checks it of each of these ends of a text: end, line, field and number.
fn all_leave(
    rt: &impl Abort,
    heap: Global,
    start: &str,
    ends: &[(&str, u32, u32, u32)],
    kept: &State,
) -> Result<(), Fail> {
    for (end, line, field, number) in ends {
        let text = format!(in heap; "{start}{end}")?;
        leaves(rt, heap, text.as_str(), (*line, *field, *number), kept)?;
    }
    Ok(())
}

#[test]
fn faults_before_the_lay(rt: HostRuntime) -> Result<(), Fail> {
    let heap = rt.alloc();
    let kept = Site::blank(heap, 8, 30)?.state()?;
    all_leave(
        &rt,
        heap,
        "",
        &[
            ("", 1, 0, 12),
            ("\n", 1, 0, 12),
            ("width depth sw se ne nw", 1, 0, 12),
            ("width depth sw se nw ne\n4 4 0 0 0 0\n", 1, 0, 12),
            ("width depth sw se ne nw \n4 4 0 0 0 0\n", 1, 0, 12),
            ("width depth sw se ne nw\r\n4 4 0 0 0 0\n", 1, 0, 12),
        ],
        &kept,
    )?;
    all_leave(
        &rt,
        heap,
        NAMES,
        &[
            ("", 2, 0, 13),
            ("\n", 2, 0, 13),
            ("4 4 0 0 0 0", 2, 0, 13),
            ("4 4 0 0 0\n", 2, 0, 13),
            ("4 4 0 0 0 0 0\n", 2, 0, 13),
            ("4 4 0 01 0 0\n", 2, 4, 13),
            ("4 4 0  0 0\n", 2, 4, 13),
            ("4 4 0 123456 0 0\n", 2, 4, 13),
            ("4 4 0 a 0 0\n", 2, 4, 13),
            ("4 4 0 -1 0 x\n", 2, 4, 13),
            ("1 4 0 0 0 0\n", 2, 0, 1),
            ("4 32768 0 0 0 99999\n", 2, 0, 1),
            ("4 4 0 0 0 32768\n", 2, 0, 2),
        ],
        &kept,
    )
}

#[test]
fn faults_after_the_lay(rt: HostRuntime) -> Result<(), Fail> {
    let heap = rt.alloc();
    let kept = Site::laid(heap, 8, 30)?.state()?;
    all_leave(
        &rt,
        heap,
        PLAN,
        &[
            ("", 3, 0, 12),
            ("\n", 3, 0, 12),
            ("east north height", 3, 0, 12),
            ("east north\n2 1 7\n", 3, 0, 12),
            ("east north north\n2 1 7\n", 3, 0, 12),
        ],
        &kept,
    )?;
    all_leave(
        &rt,
        heap,
        COLUMNS,
        &[
            ("\n", 4, 0, 13),
            ("2 1 7 \n", 4, 0, 13),
            ("2 1 7", 4, 0, 13),
            ("2 x", 4, 0, 13),
            ("2 x 7\n", 4, 2, 13),
            ("4 2 0\n", 4, 0, 5),
            ("2 1 32768\n", 4, 0, 2),
        ],
        &kept,
    )
}

#[test]
fn faults_after_an_add(rt: HostRuntime) -> Result<(), Fail> {
    let heap = rt.alloc();
    let mut site = Site::laid(heap, 8, 30)?;
    site.takes(&rt, vertex(2, 1, 7), 4)?;
    let kept = site.state()?;
    all_leave(
        &rt,
        heap,
        ONE,
        &[
            ("2 1 7\n", 5, 0, 6),
            ("\n", 5, 0, 13),
            ("1 1\n2 2 0\n", 5, 0, 13),
            ("1 1 00\n", 5, 3, 13),
        ],
        &kept,
    )
}

#[test]
fn faults_for_want_of_room(rt: HostRuntime) -> Result<(), Fail> {
    for (vertices, half_edges, fault) in [
        (3, 12, Some((2, 0, 3))),
        (5, 5, Some((2, 0, 3))),
        (4, 12, Some((4, 0, 7))),
        (5, 11, Some((4, 0, 7))),
        (5, 12, None),
    ] {
        let mut site = Site::blank(rt.alloc(), vertices, half_edges)?;
        assert_eq!(rt; told(site.load(ONE.as_bytes())), fault);
    }
    Ok(())
}

#[test]
fn columns_stand_in_any_order(rt: HostRuntime) -> Result<(), Fail> {
    for lines in [
        "east north height\n1 2 3\n",
        "east height north\n1 3 2\n",
        "north east height\n2 1 3\n",
        "north height east\n2 3 1\n",
        "height east north\n3 1 2\n",
        "height north east\n3 2 1\n",
    ] {
        let text = format!(in rt.alloc(); "{PLAN}{lines}")?;
        let mut site = Site::blank(rt.alloc(), 5, 12)?;
        assert_eq!(rt; site.load(text.as_bytes())?, 1);
        assert_eq!(rt; site.vertices.get(4).copied(), Some(vertex(1, 2, 3)));
    }
    Ok(())
}
