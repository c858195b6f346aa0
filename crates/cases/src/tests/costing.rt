// What a mesh costs, by fold, by length, and by costs made of these.
use super::site::*;
use cost::combined::{Joint, Scaled};
use cost::length::Length;
use cost::{Cost, Fold};
use job::job::Job;
use mesh::Plan;
use std::alloc::Global;
use std::process::Abort;
use std::test::*;
use worklist::Fifo;

const CAP: u64 = 1 << 48;

// The rectangle with height h at corners 0 and 2, and 0 at the others.
fn folded(heap: Global, side: u32, h: u32) -> Result<Site, Fail> {
    let plan = Plan {
        sw: h,
        ne: h,
        ..flat(side, side)
    };
    Site::laid_as(heap, 4, 6, plan)
}

// Checks what the faces and the edges cost.
pub(super) fn costs<C: Cost + Drop>(
    rt: &impl Abort,
    heap: Global,
    site: &Site,
    cost: C,
    sums: (u64, u64),
) -> Result<(), Fail> {
    let job = Job {
        cost,
        worklist: Fifo::new(heap)?,
        lookahead: 0,
    };
    assert_eq!(rt; job.cost(site.mesh()), Ok(sums));
    Ok(())
}

fn scaled(weight: u32) -> Scaled<Fold> {
    Scaled {
        cost: Fold {},
        weight,
    }
}

#[test]
fn fold_and_length_of_a_diagonal(rt: HostRuntime) -> Result<(), Fail> {
    let heap = rt.alloc();
    let site = folded(heap, 4, 2)?;
    costs(&rt, heap, &site, Fold {}, (0, 64))?;
    costs(&rt, heap, &site, Length {}, (0, 32))?;
    let joint = Joint {
        first: Fold {},
        second: Length {},
    };
    costs(&rt, heap, &site, joint, (0, 96))
}

#[test]
fn a_weight_above_16_counts_as_16(rt: HostRuntime) -> Result<(), Fail> {
    let heap = rt.alloc();
    let site = folded(heap, 4, 2)?;
    for (weight, edges) in [(0, 0), (1, 64), (16, 1024), (17, 1024), (u32::MAX, 1024)] {
        costs(&rt, heap, &site, scaled(weight), (0, edges))?;
    }
    Ok(())
}

#[test]
fn no_part_is_above_the_cap(rt: HostRuntime) -> Result<(), Fail> {
    let heap = rt.alloc();
    let site = folded(heap, 32767, 32767)?;
    costs(&rt, heap, &site, Fold {}, (0, 70362301923326))?;
    costs(&rt, heap, &site, scaled(4), (0, 281449207693304))?;
    costs(&rt, heap, &site, scaled(5), (0, CAP))?;
    let joint = Joint {
        first: scaled(5),
        second: scaled(1),
    };
    costs(&rt, heap, &site, joint, (0, CAP))?;
    let nested = Scaled {
        cost: scaled(16),
        weight: 16,
    };
    costs(&rt, heap, &site, nested, (0, CAP))
}

#[test]
fn the_question_refuses_no_mesh(rt: HostRuntime) -> Result<(), Fail> {
    let heap = rt.alloc();
    let mut site = folded(heap, 4, 2)?;
    site.set_half_edge(&rt, 2, half_edge(2, 3, 1))?;
    let job = Job {
        cost: Fold {},
        worklist: Fifo::new(heap)?,
        lookahead: 0,
    };
    assert_eq!(rt; refused(job.cost(site.mesh())), Some(4));
    Ok(())
}
