// Lent memory with a job at work on it. Checks name `rt`, `heap` and the lengths of both lists, so that a reader sees what each uses.
use cost::Fold;
use job::job::Job;
use mesh::{HalfEdge, Header, MeshMut, MeshRef, Plan, Refusal, Vertex};
use std::alloc::{AllocError, Global};
use std::process::Abort;
use std::test::*;
use text::{Fault, load};
use worklist::{Fifo, Worklist};

// What stands in memory that nothing was written to.
const BLANK_HEADER: Header = Header {
    width: 9,
    depth: 9,
    count: 9,
};

const BLANK_VERTEX: Vertex = Vertex {
    east: 9,
    north: 9,
    height: 9,
};

const BLANK_HALF_EDGE: HalfEdge = HalfEdge {
    origin: 9,
    twin: 9,
    pin: 9,
};

pub(super) fn flat(width: u32, depth: u32) -> Plan {
    Plan {
        width,
        depth,
        sw: 0,
        se: 0,
        ne: 0,
        nw: 0,
    }
}

pub(super) fn vertex(east: u32, north: u32, height: u32) -> Vertex {
    Vertex {
        east,
        north,
        height,
    }
}

pub(super) fn half_edge(origin: u16, twin: u16, pin: u8) -> HalfEdge {
    HalfEdge { origin, twin, pin }
}

// The number of a refusal; none if the call is taken.
pub(super) fn refused<T: Drop>(r: Result<T, Refusal>) -> Option<u32> {
    r.err().map(Refusal::number)
}

// All that a call may change.
#[derive(PartialEq, Eq, Debug, Drop)]
pub(super) struct State {
    header: Header,
    vertices: Vec<Vertex>,
    half_edges: Vec<HalfEdge>,
    waiting: Vec<u32>,
}

#[derive(Drop)]
pub(super) struct Site {
    heap: Global,
    pub(super) header: Header,
    pub(super) vertices: Vec<Vertex>,
    pub(super) half_edges: Vec<HalfEdge>,
    job: Job<Fold, Fifo>,
}

impl Site {
    // Blank memory, and a worklist in which 5 and 3 wait.
    pub(super) fn blank(
        heap: Global,
        vertices: usize,
        half_edges: usize,
    ) -> Result<Site, AllocError> {
        let mut worklist = Fifo::new(heap)?;
        let _ = worklist.put(5);
        let _ = worklist.put(3);
        Ok(Site {
            heap,
            header: BLANK_HEADER,
            vertices: vec![in heap; BLANK_VERTEX; vertices]?,
            half_edges: vec![in heap; BLANK_HALF_EDGE; half_edges]?,
            job: Job {
                cost: Fold {},
                worklist,
                lookahead: 2,
            },
        })
    }

    // A mesh just laid, in lists of these lengths.
    pub(super) fn laid_as(
        heap: Global,
        vertices: usize,
        half_edges: usize,
        plan: Plan,
    ) -> Result<Site, Fail> {
        let mut site = Site::blank(heap, vertices, half_edges)?;
        site.lay(plan)?;
        Ok(site)
    }

    // The flat 4 by 4 mesh.
    pub(super) fn laid(heap: Global, vertices: usize, half_edges: usize) -> Result<Site, Fail> {
        Site::laid_as(heap, vertices, half_edges, flat(4, 4))
    }

    // The job, and the mesh that it is lent.
    fn parts(&mut self) -> (&mut Job<Fold, Fifo>, MeshMut) {
        let mesh = MeshMut {
            header: &mut self.header,
            vertices: &mut self.vertices,
            half_edges: &mut self.half_edges,
        };
        (&mut self.job, mesh)
    }

    pub(super) fn lay(&mut self, plan: Plan) -> Result<u64, Refusal> {
        let (job, mut mesh) = self.parts();
        job.lay(&mut mesh, plan)
    }

    pub(super) fn add(&mut self, w: Vertex) -> Result<u32, Refusal> {
        let (job, mut mesh) = self.parts();
        job.add(&mut mesh, w)
    }

    pub(super) fn flip(&mut self, s: u32) -> Result<(u64, u64), Refusal> {
        let (job, mut mesh) = self.parts();
        job.flip(&mut mesh, s)
    }

    pub(super) fn pin(&mut self, s: u32) -> Result<u32, Refusal> {
        let (job, mut mesh) = self.parts();
        job.pin(&mut mesh, s)
    }

    pub(super) fn unpin(&mut self, s: u32) -> Result<u32, Refusal> {
        let (job, mut mesh) = self.parts();
        job.unpin(&mut mesh, s)
    }

    pub(super) fn load(&mut self, text: &[u8]) -> Result<u32, Fault> {
        let (job, mut mesh) = self.parts();
        load::load(job, &mut mesh, text)
    }

    pub(super) fn mesh(&self) -> MeshRef {
        MeshRef {
            header: &self.header,
            vertices: &self.vertices,
            half_edges: &self.half_edges,
        }
    }

    // This and `set_vertex` write into two lists of two types; a generic one would be longer.
    pub(super) fn set_half_edge(
        &mut self,
        rt: &impl Abort,
        s: usize,
        half_edge: HalfEdge,
    ) -> Result<(), Fail> {
        assert!(rt; s < self.half_edges.len());
        self.half_edges[s] = half_edge;
        Ok(())
    }

    pub(super) fn set_vertex(
        &mut self,
        rt: &impl Abort,
        v: usize,
        vertex: Vertex,
    ) -> Result<(), Fail> {
        assert!(rt; v < self.vertices.len());
        self.vertices[v] = vertex;
        Ok(())
    }

    // The first number that waits.
    pub(super) fn take(&mut self) -> Option<u32> {
        self.job.worklist.take()
    }

    // Checks that the vertex gets this number.
    pub(super) fn takes(&mut self, rt: &impl Abort, w: Vertex, number: u32) -> Result<(), Fail> {
        assert_eq!(rt; self.add(w), Ok(number));
        assert!(rt; self.mesh().is_sound());
        Ok(())
    }

    // Checks that the lists are blank past this many vertices and half-edges.
    pub(super) fn is_blank_past(
        &self,
        rt: &impl Abort,
        vertices: usize,
        half_edges: usize,
    ) -> Result<(), Fail> {
        for v in self.vertices.iter().skip(vertices) {
            assert_eq!(rt; *v, BLANK_VERTEX);
        }
        for s in self.half_edges.iter().skip(half_edges) {
            assert_eq!(rt; *s, BLANK_HALF_EDGE);
        }
        Ok(())
    }

    // The numbers that wait, each taken and put back.
    pub(super) fn waiting(&mut self) -> Result<Vec<u32>, AllocError> {
        let mut all = Vec::new(self.heap);
        for _ in 0..self.job.worklist.count() {
            if let Some(k) = self.job.worklist.take() {
                all.push(k)?;
                let _ = self.job.worklist.put(k);
            }
        }
        Ok(all)
    }

    pub(super) fn state(&mut self) -> Result<State, AllocError> {
        Ok(State {
            header: self.header,
            vertices: self.vertices.clone()?,
            half_edges: self.half_edges.clone()?,
            waiting: self.waiting()?,
        })
    }

    // Checks that a call is refused with this number and changes nothing.
    fn refuses<T: Drop, F: FnOnce(&mut Site) -> Result<T, Refusal>>(
        &mut self,
        rt: &impl Abort,
        call: F,
        number: u32,
    ) -> Result<(), Fail>
        requires { F.IsAlwaysCallable call }
    {
        let before = self.state()?;
        assert_eq!(rt; refused(call(self)), Some(number));
        assert_eq!(rt; self.state()?, before);
        Ok(())
    }

    // Checks that lay is refused with this number and changes nothing.
    pub(super) fn refuses_plan(
        &mut self,
        rt: &impl Abort,
        plan: Plan,
        number: u32,
    ) -> Result<(), Fail> {
        self.refuses(rt, |site| site.lay(plan), number)
    }

    // Checks that flip, pin and unpin are refused with this number and change nothing.
    pub(super) fn refuses_edits(
        &mut self,
        rt: &impl Abort,
        s: u32,
        number: u32,
    ) -> Result<(), Fail> {
        self.refuses(rt, |site| site.flip(s), number)?;
        self.refuses(rt, |site| site.pin(s), number)?;
        self.refuses(rt, |site| site.unpin(s), number)
    }

    // Checks that add is refused with this number and changes nothing.
    pub(super) fn refuses_vertex(
        &mut self,
        rt: &impl Abort,
        w: Vertex,
        number: u32,
    ) -> Result<(), Fail> {
        self.refuses(rt, |site| site.add(w), number)
    }
}
