// The job and its calls. `as` stands where Rust has no `From`.
ghost use Rattle.std.specs.Prelude.{◌≡◌, ◌<◌, ◌≢◌, length};
ghost use Rattle.mesh.specs.Meshes.{seen, lent, SameLoan, twin_of, interior};
ghost use Rattle.mesh.specs.declared.Refusal.TheVariants.{Unowned};
ghost use Rattle.cost.specs.Laws.{CostLaws};
ghost use Rattle.worklist.specs.Orders.{Refilled};
ghost use Rattle.job.specs.declared.Call.TheVariants.{Lay, Add, Flip, Pin, Unpin};
ghost use Rattle.job.specs.declared.Answer.TheVariants.{Refused, Laid, Added, Flipped, Pinned, Unpinned};
ghost use Rattle.editing.specs.Flips.{edge_number, pinned};
ghost use Rattle.editing.specs.FlipLaws.{FlipLaws, PinLaws};
ghost use Rattle.job.specs.Quads.{FlipCostLaws};
ghost use Rattle.job.specs.Rule.{Rule, state_of, answered, asked, KeepsSound};
ghost use Rattle.job.specs.Settings.{SameSettings};

use crate::checks::{check_add, check_flip, check_lay, check_pin, check_unpin};
use cost::{Cost, edge_sum, face_sum, total};
use editing::flips;
use mesh::views::{RoomyMesh, SoundMesh};
use mesh::{MeshMut, MeshRef, Plan, Refusal, Vertex, edits};
use worklist::Worklist;

// Empties the worklist and puts every interior edge, in rising number. A `for` over the numbers, which it puts; they stand in no list.
fn refill<L: Worklist>(worklist: &mut L, mesh: RoomyMesh)
    ensures { Refilled L.order (interior (seen mesh.entry.mesh)) (L.waiting worklist.new) }
{
    worklist.clear();
    for s in 0..mesh.used() {
        let waits = mesh.is_edge_number(s);
        if waits {
            let _ = worklist.put(s as u32);
        }
    }
}

// Gives the edge of half-edge s this pin, a number as in the caller's memory, and answers the edge's number.
fn set_pin(mesh: &mut MeshMut, s: u32, pin: u8) -> u32
    requires within { s < length mesh.old.half_edges.now }
    requires twin { twin_of (lent mesh.old) s < length mesh.old.half_edges.now }
    ensures number { result ≡ edge_number (lent mesh.old) s }
    ensures after { lent mesh.new ≡ pinned pin (lent mesh.old) s }
    ensures loan { SameLoan mesh.old mesh.new }
{
    let at = s as usize;
    let twin = mesh.half_edges[at].twin;
    flips::set_pin(mesh.half_edges, at, pin);
    s.min(u32::from(twin))
}

// A cost, an order of waiting and a lookahead; one above 2 counts as 2.
// Each call says by `SameSettings` that cost and lookahead stay: no type says so of a `&mut self`.
#[derive(Drop)]
pub struct Job<C: Cost, L: Worklist> {
    pub cost: C,
    pub worklist: L,
    pub lookahead: u8,
}

// The clause `rule` is written out in each call, since each names another call and another answer.
// A call that has written makes its `SoundMesh` itself, since each shows by a theorem of its own that the mesh is sound.
impl<C: Cost, L: Worklist> Job<C, L> {
    // Lays the rectangle with its four corners, and answers the mesh's cost.
    pub fn lay(&mut self, mesh: &mut MeshMut, plan: Plan) -> Result<u64, Refusal>
        ensures rule { Rule (C.parts self.old.cost) L.order self.old.lookahead
            (state_of (lent mesh.old) (L.waiting self.old.worklist)) (Lay plan) (answered Laid result)
            (state_of (lent mesh.new) (L.waiting self.new.worklist)) }
        ensures sound { KeepsSound (lent mesh.old) (answered Laid result) (lent mesh.new) }
        ensures loan { SameLoan mesh.old mesh.new }
        ensures settings { SameSettings self.old self.new }
    {
        check_lay(mesh.as_ref(), plan)?;
        edits::lay(mesh, plan);
        let laid = SoundMesh {
            mesh: mesh.as_ref(),
        };
        refill(&mut self.worklist, laid.roomy());
        Ok(total(&self.cost, laid.indexed()))
    }

    // Adds a vertex in the face that owns it, and answers its number. There always is one, so it is never refused for want of a face.
    pub fn add(&mut self, mesh: &mut MeshMut, w: Vertex) -> Result<u32, Refusal>
        ensures rule { Rule (C.parts self.old.cost) L.order self.old.lookahead
            (state_of (lent mesh.old) (L.waiting self.old.worklist)) (Add w) (answered Added result)
            (state_of (lent mesh.new) (L.waiting self.new.worklist)) }
        ensures sound { KeepsSound (lent mesh.old) (answered Added result) (lent mesh.new) }
        ensures owned { answered Added result ≢ Refused Unowned }
        ensures loan { SameLoan mesh.old mesh.new }
        ensures settings { SameSettings self.old self.new }
    {
        let f = check_add(mesh.as_ref(), w)?;
        let number = mesh.header.count;
        edits::add(mesh, w, f);
        let added = SoundMesh {
            mesh: mesh.as_ref(),
        };
        refill(&mut self.worklist, added.roomy());
        Ok(number)
    }

    // Flips the edge of half-edge s, and answers the mesh's cost before and after.
    pub fn flip(&mut self, mesh: &mut MeshMut, s: u32) -> Result<(u64, u64), Refusal>
        ensures laws { FlipLaws }
        ensures cost_laws { FlipCostLaws }
        ensures rule { Rule (C.parts self.old.cost) L.order self.old.lookahead
            (state_of (lent mesh.old) (L.waiting self.old.worklist)) (Flip s) (answered (λ c. Flipped c.0 c.1) result)
            (state_of (lent mesh.new) (L.waiting self.new.worklist)) }
        ensures sound { KeepsSound (lent mesh.old) (answered (λ c. Flipped c.0 c.1) result) (lent mesh.new) }
        ensures loan { SameLoan mesh.old mesh.new }
        ensures settings { SameSettings self.old self.new }
    {
        let s = s as usize;
        let view = mesh.as_ref();
        check_flip(view, s)?;
        let sound = SoundMesh { mesh: view };
        let before = total(&self.cost, sound.indexed());
        let used = sound.roomy().used();
        flips::flip(mesh.half_edges, s, used);
        let flipped = SoundMesh {
            mesh: mesh.as_ref(),
        };
        refill(&mut self.worklist, flipped.roomy());
        let after = total(&self.cost, flipped.indexed());
        Ok((before, after))
    }

    // Pins the edge of half-edge s, and answers its number.
    pub fn pin(&mut self, mesh: &mut MeshMut, s: u32) -> Result<u32, Refusal>
        ensures laws { PinLaws }
        ensures rule { Rule (C.parts self.old.cost) L.order self.old.lookahead
            (state_of (lent mesh.old) (L.waiting self.old.worklist)) (Pin s) (answered Pinned result)
            (state_of (lent mesh.new) (L.waiting self.new.worklist)) }
        ensures sound { KeepsSound (lent mesh.old) (answered Pinned result) (lent mesh.new) }
        ensures loan { SameLoan mesh.old mesh.new }
        ensures settings { SameSettings self.old self.new }
    {
        check_pin(mesh.as_ref(), s as usize)?;
        Ok(set_pin(mesh, s, 1))
    }

    // Takes the pin of the edge of half-edge s out, and answers its number.
    pub fn unpin(&mut self, mesh: &mut MeshMut, s: u32) -> Result<u32, Refusal>
        ensures rule { Rule (C.parts self.old.cost) L.order self.old.lookahead
            (state_of (lent mesh.old) (L.waiting self.old.worklist)) (Unpin s) (answered Unpinned result)
            (state_of (lent mesh.new) (L.waiting self.new.worklist)) }
        ensures sound { KeepsSound (lent mesh.old) (answered Unpinned result) (lent mesh.new) }
        ensures loan { SameLoan mesh.old mesh.new }
        ensures settings { SameSettings self.old self.new }
    {
        check_unpin(mesh.as_ref(), s as usize)?;
        let freed = set_pin(mesh, s, 0);
        let sound = SoundMesh {
            mesh: mesh.as_ref(),
        };
        refill(&mut self.worklist, sound.roomy());
        Ok(freed)
    }

    // What the faces cost and what the interior edges cost; and what joint, scaled and misfit costs come to over a mesh, as laws.
    pub fn cost(&self, mesh: MeshRef) -> Result<(u64, u64), Refusal>
        ensures laws { CostLaws }
        ensures sums { result ≡ asked (C.parts self.now.cost) (seen mesh.entry) }
    {
        let mesh = mesh.sound()?.indexed();
        let faces = face_sum(&self.cost, mesh);
        let edges = edge_sum(&self.cost, mesh);
        Ok((faces, edges))
    }
}
