// What readings of the ground cost a mesh.
use super::costing::costs;
use super::site::*;
use cost::combined::{Joint, Scaled};
use cost::length::Length;
use cost::misfit::{Misfit, Reading};
use mesh::Plan;
use std::alloc::Global;
use std::process::Abort;
use std::test::*;

fn reading(east: u32, north: u32, height: u32) -> Reading {
    Reading {
        east,
        north,
        height,
    }
}

// A square with its northwest corner raised: face 0 lies at 0, face 1 rises from the diagonal to that corner.
fn raised(heap: Global, side: u32, nw: u32) -> Result<Site, Fail> {
    let plan = Plan {
        nw,
        ..flat(side, side)
    };
    Site::laid_as(heap, 4, 6, plan)
}

// Checks what one reading alone costs the faces.
fn adds(rt: &impl Abort, heap: Global, site: &Site, one: Reading, faces: u64) -> Result<(), Fail> {
    let readings = [one];
    let misfit = Misfit {
        readings: readings.as_slice(),
    };
    costs(rt, heap, site, misfit, (faces, 0))
}

#[test]
fn a_reading_counts_for_the_face_that_owns_it(rt: HostRuntime) -> Result<(), Fail> {
    let heap = rt.alloc();
    let site = raised(heap, 4, 4)?;
    // Inside either face, and on the edge between them.
    adds(&rt, heap, &site, reading(3, 1, 7), 49)?;
    adds(&rt, heap, &site, reading(1, 3, 0), 4)?;
    adds(&rt, heap, &site, reading(1, 1, 5), 25)?;
    adds(&rt, heap, &site, reading(2, 2, 0), 0)?;
    // On the west and north borders, which faces own, and on the south and east borders, which none does.
    adds(&rt, heap, &site, reading(0, 2, 5), 9)?;
    adds(&rt, heap, &site, reading(2, 4, 0), 4)?;
    adds(&rt, heap, &site, reading(2, 0, 5), 0)?;
    adds(&rt, heap, &site, reading(4, 2, 5), 0)
}

#[test]
fn a_reading_at_a_vertex(rt: HostRuntime) -> Result<(), Fail> {
    let heap = rt.alloc();
    let site = raised(heap, 4, 4)?;
    adds(&rt, heap, &site, reading(0, 4, 4), 0)?;
    adds(&rt, heap, &site, reading(0, 4, 6), 4)?;
    for (east, north) in [(0, 0), (4, 0), (4, 4)] {
        adds(&rt, heap, &site, reading(east, north, 9), 0)?;
    }
    Ok(())
}

#[test]
fn a_reading_outside_adds_nothing(rt: HostRuntime) -> Result<(), Fail> {
    let heap = rt.alloc();
    let site = raised(heap, 32767, 32767)?;
    let far = [32768, 1 << 31, u32::MAX - 1, u32::MAX];
    for x in far {
        adds(&rt, heap, &site, reading(x, 1, 9), 0)?;
        adds(&rt, heap, &site, reading(1, x, 9), 0)?;
        adds(&rt, heap, &site, reading(x, x, 9), 0)?;
    }
    adds(&rt, heap, &site, reading(1, 32766, 0), 1073545225)
}

#[test]
fn a_height_above_32767_does_not_count(rt: HostRuntime) -> Result<(), Fail> {
    let heap = rt.alloc();
    let site = raised(heap, 4, 4)?;
    adds(&rt, heap, &site, reading(1, 1, 32767), 1073676289)?;
    adds(&rt, heap, &site, reading(1, 1, 32768), 0)?;
    adds(&rt, heap, &site, reading(1, 1, u32::MAX), 0)
}

#[test]
fn the_height_of_a_face_is_rounded_down(rt: HostRuntime) -> Result<(), Fail> {
    let heap = rt.alloc();
    let site = raised(heap, 4, 3)?;
    // The face lies at 3/4, 6/4 and 9/4 there.
    adds(&rt, heap, &site, reading(0, 1, 2), 4)?;
    adds(&rt, heap, &site, reading(0, 2, 0), 1)?;
    adds(&rt, heap, &site, reading(0, 3, 0), 4)
}

#[test]
fn only_the_first_4096_readings_count(rt: HostRuntime) -> Result<(), Fail> {
    let heap = rt.alloc();
    let site = raised(heap, 4, 4)?;
    let mut readings = vec![in heap; reading(1, 1, 1); 4095]?;
    readings.push(reading(1, 1, 3))?;
    let misfit = Misfit {
        readings: readings.as_slice(),
    };
    costs(&rt, heap, &site, misfit, (4104, 0))?;
    readings.push(reading(1, 1, 5))?;
    let misfit = Misfit {
        readings: readings.as_slice(),
    };
    costs(&rt, heap, &site, misfit, (4104, 0))
}

#[test]
fn misfit_joined_and_scaled(rt: HostRuntime) -> Result<(), Fail> {
    let heap = rt.alloc();
    let site = raised(heap, 4, 4)?;
    let readings = vec![in heap; reading(1, 1, 32767); 4096]?;
    let sixteen = Scaled {
        cost: Misfit {
            readings: readings.as_slice(),
        },
        weight: 16,
    };
    let joint = Joint {
        first: sixteen,
        second: Length {},
    };
    costs(&rt, heap, &site, joint, (70364449275904, 32))?;
    let capped = Scaled {
        cost: Scaled {
            cost: Misfit {
                readings: readings.as_slice(),
            },
            weight: 16,
        },
        weight: 17,
    };
    costs(&rt, heap, &site, capped, (281474976710656, 0))
}
