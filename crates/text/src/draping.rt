// From a spot file to the text that drape prints; in the caller's memory, which is lent, or in blank memory of its own.
ghost use Rattle.std.specs.Prelude.{◌≡◌, IfOk, IfErr};
ghost use Rattle.mesh.specs.declared.Refusal.{Refusal};
ghost use Rattle.text.specs.declared.draping.NotDraped.TheVariants.{OutOfMemory, Refused};
ghost use Rattle.cost.specs.Costs.{fold};
ghost use Rattle.worklist.specs.Orders.{fifo};
ghost use Rattle.mesh.specs.Meshes.{lent, SameLoan};
ghost use Rattle.job.specs.Rule.{state_of};
ghost use Rattle.job.specs.Settings.{SameSettings};
ghost use Rattle.text.specs.Loads.{Drapes, Draped};

use crate::load::load;
use crate::report::{fault_line, report};
use cost::{Cost, Fold};
use job::job::Job;
use mesh::{HalfEdge, Header, MeshMut, Refusal, Vertex};
use std::alloc::{AllocError, Global};
use thiserror::Error;
use worklist::{Fifo, Worklist};

// Loads a spot file and writes the report of the mesh, or that of the fault; answers the text's length.
pub fn drape<C: Cost, L: Worklist>(
    job: &mut Job<C, L>,
    mesh: &mut MeshMut,
    text: &[u8],
    buffer: &mut [u8],
) -> Result<usize, Refusal>
    ensures drapes { Drapes (C.parts job.old.cost) L.order job.old.lookahead
        (state_of (lent mesh.old) (L.waiting job.old.worklist))
        text.now buffer.old result buffer.new
        (state_of (lent mesh.new) (L.waiting job.new.worklist)) }
    ensures loan { SameLoan mesh.old mesh.new }
    ensures settings { SameSettings job.old job.new }
{
    match load(job, mesh, text) {
        Ok(_) => report(mesh.as_ref(), buffer),
        Err(fault) => fault_line(fault, buffer),
    }
}

// Why there is no text.
#[derive(Debug, Drop, Error)]
pub enum NotDraped {
    #[error("memory allocation failed")]
    OutOfMemory,
    #[error("the mesh cannot be reported")]
    Refused(Refusal),
}

// By hand: what thiserror's `#[from]` writes has no contract.
impl From<AllocError> for NotDraped {
    ghost from_gives = { λ _ e. e ≡ OutOfMemory };

    fn from(_error: AllocError) -> NotDraped {
        NotDraped::OutOfMemory
    }
}

impl From<Refusal> for NotDraped {
    ghost from_gives = { λ refusal e. e ≡ Refused refusal };

    fn from(refusal: Refusal) -> NotDraped {
        NotDraped::Refused(refusal)
    }
}

// The text of a spot file that is loaded into blank memory, by a job of the fold cost, first in, first out, that looks ahead 2.
pub fn draped(heap: Global, text: &[u8]) -> Result<Vec<u8>, NotDraped>
    ensures told { IfOk result (λ v. Draped fold fifo 2 text.now (Ok v.items)) }
    ensures refused { IfErr result (λ e. (refusal : Refusal) → e ≡ Refused refusal → Draped fold fifo 2 text.now (Err refusal)) }
{
    let mut header = Header::default();
    let mut vertices = vec![in heap; Vertex::default(); 1024]?;
    let mut half_edges = vec![in heap; HalfEdge::default(); 6126]?;
    let mut mesh = MeshMut {
        header: &mut header,
        vertices: &mut vertices,
        half_edges: &mut half_edges,
    };
    let mut job = Job {
        cost: Fold {},
        worklist: Fifo::new(heap)?,
        lookahead: 2,
    };
    let mut output = vec![in heap; 0u8; 32768]?;
    let length = drape(&mut job, &mut mesh, text, &mut output)?;
    output.truncate(length);
    Ok(output)
}
