// What is checked before a call: the first refusal in the stated order; each contract names another call. `as` stands where Rust has no `From`.
ghost use Rattle.std.specs.Prelude.{◌≡◌, ◌<◌, ◌≤◌, length};
ghost use Rattle.mesh.specs.Meshes.{seen};
ghost use Rattle.job.specs.declared.Call.TheVariants.{Lay, Add, Flip, Pin, Unpin};
ghost use Rattle.job.specs.Checks.{Addable, Editable};
ghost use Rattle.job.specs.Rule.{heights_fit, too_short, is_full as full, edge_faults, first_fault, refusal, Checked};

use editing::flips::{is_convex, is_interior};
use mesh::soundness::extent_fits;
use mesh::views::{RoomyMesh, SoundMesh};
use mesh::{MeshRef, Plan, Refusal, Vertex};

// Whether no corner's height is above 32,767.
fn heights_fit(p: Plan) -> bool
    ensures { result ≡ heights_fit p }
{
    p.sw <= 32767 && p.se <= 32767 && p.ne <= 32767 && p.nw <= 32767
}

// Whether the lists have no place for four vertices or six half-edges.
fn is_too_short(mesh: MeshRef) -> bool
    ensures { result ≡ too_short (seen mesh.entry) }
{
    mesh.vertices.len() < 4 || mesh.half_edges.len() < 6
}

// Whether there is no room for one more vertex with its six half-edges.
fn is_full(roomy: RoomyMesh) -> bool
    ensures { result ≡ full (seen roomy.entry.mesh) }
{
    let mesh = roomy.mesh;
    mesh.header.count >= 1024
        || mesh.vertices.len() <= mesh.header.count as usize
        || mesh.half_edges.len() < roomy.used() + 6
}

// Why the rectangle cannot be laid.
pub fn check_lay(mesh: MeshRef, p: Plan) -> Result<(), Refusal>
    ensures { Checked (refusal (seen mesh.entry) (Lay p)) result (λ _. (4 ≤ length (seen mesh.entry).vertices) × (6 ≤ length (seen mesh.entry).half_edges)) }
{
    if !extent_fits(p.width, p.depth) {
        return Err(Refusal::Extent);
    }
    if !heights_fit(p) {
        return Err(Refusal::Height);
    }
    if is_too_short(mesh) {
        return Err(Refusal::TooShort);
    }
    Ok(())
}

// Why w cannot be added; else the face that owns it.
pub fn check_add(mesh: MeshRef, w: Vertex) -> Result<usize, Refusal>
    ensures { Checked (refusal (seen mesh.entry) (Add w)) result (Addable (seen mesh.entry) w) }
{
    let sound = mesh.sound()?;
    if w.height > 32767 {
        return Err(Refusal::Height);
    }
    let p = w.point();
    if !mesh.strictly_inside(p) {
        return Err(Refusal::Outside);
    }
    let roomy = sound.roomy();
    if roomy.is_occupied(p) {
        return Err(Refusal::Occupied);
    }
    if is_full(roomy) {
        return Err(Refusal::Full);
    }
    sound.placed().owner(p).ok_or(Refusal::Unowned)
}

// Why the edge of half-edge s cannot be edited by hand, whatever the edit. The answers here and below hold no mesh, so
// that they may be kept while it is written; whoever goes on makes its `SoundMesh` of what is shown.
fn check_edge(mesh: MeshRef, s: usize) -> Result<(), Refusal>
    ensures { Checked (first_fault (edge_faults (seen mesh.entry) s)) result (λ _. Editable (seen mesh.entry) s) }
{
    let sound = mesh.sound()?;
    if !is_interior(sound.roomy(), s) {
        return Err(Refusal::NotInterior);
    }
    Ok(())
}

// Why the edge of half-edge s cannot be pinned.
pub fn check_pin(mesh: MeshRef, s: usize) -> Result<(), Refusal>
    ensures { Checked (refusal (seen mesh.entry) (Pin s)) result (λ _. Editable (seen mesh.entry) s) }
{
    check_edge(mesh, s)?;
    if mesh.half_edges[s].is_pinned() {
        return Err(Refusal::PinState);
    }
    Ok(())
}

// Why the edge of half-edge s cannot be flipped: why it cannot be pinned either, or no room for the other diagonal.
pub fn check_flip(mesh: MeshRef, s: usize) -> Result<(), Refusal>
    ensures { Checked (refusal (seen mesh.entry) (Flip s)) result (λ _. Editable (seen mesh.entry) s) }
{
    check_pin(mesh, s)?;
    let sound = SoundMesh { mesh };
    if !is_convex(sound.placed(), s) {
        return Err(Refusal::NotConvex);
    }
    Ok(())
}

// Why the pin of the edge of half-edge s cannot be taken out. No one function with `check_pin`: a flag would hide which is asked.
pub fn check_unpin(mesh: MeshRef, s: usize) -> Result<(), Refusal>
    ensures { Checked (refusal (seen mesh.entry) (Unpin s)) result (λ _. Editable (seen mesh.entry) s) }
{
    check_edge(mesh, s)?;
    if !mesh.half_edges[s].is_pinned() {
        return Err(Refusal::PinState);
    }
    Ok(())
}
