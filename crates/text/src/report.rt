// What a caller is told of a file and of a mesh. The buffer is the caller's, so that a length is answered and no `Vec`.
ghost use Rattle.std.specs.Prelude.{◌≡◌, ◌+◌, ◌*◌, ◌<◌, ◌≤◌, length};
ghost use Rattle.mesh.specs.Meshes.{seen, faces as face_count};
ghost use Rattle.text.specs.Printing.{face_origins, face_line, faces_text, fault_text, over, printed, buffer_after, reported, buffer_reported};

use crate::Fault;
use crate::printing::{Printer, line_length};
use mesh::views::{PlacedMesh, RoomyMesh};
use mesh::{MeshRef, Refusal};

// Writes where and why a file was refused.
pub fn fault_line(fault: Fault, buffer: &mut [u8]) -> Result<usize, Refusal>
    ensures answer { result ≡ printed (fault_text fault) buffer.old }
    ensures buffer { buffer.new ≡ buffer_after (fault_text fault) buffer.old }
{
    let number = fault.refusal.number();
    if buffer.len() < 18 + line_length(fault.line, fault.field, number) {
        return Err(Refusal::Buffer);
    }
    let mut printer = Printer { buffer, at: 0 };
    printer.put(b"line field number\n");
    printer.put_line(fault.line, fault.field, number);
    Ok(printer.at)
}

// The origins of the half-edges of a face.
fn origins(roomy: RoomyMesh, face: usize) -> [u32; 3]
    requires { face < face_count (seen roomy.mesh) }
    ensures { result ≡ face_origins (seen roomy.entry.mesh) face }
{
    let half_edges = roomy.mesh.half_edges;
    let s = 3 * face;
    [
        u32::from(half_edges[s].origin),
        u32::from(half_edges[s + 1].origin),
        u32::from(half_edges[s + 2].origin),
    ]
}

// How long the line of a face is.
fn face_length(roomy: RoomyMesh, face: usize) -> usize
    requires { face < face_count (seen roomy.mesh) }
    ensures { result ≡ length (face_line (seen roomy.entry.mesh) face) }
{
    let [a, b, c] = origins(roomy, face);
    line_length(a, b, c)
}

// How long the report of a mesh is. Origins are below 1,024, so that the sum fits.
fn faces_length(placed: PlacedMesh) -> usize
    ensures { result ≡ length (faces_text (seen placed.entry.mesh)) }
{
    let roomy = placed.roomy();
    let lines: usize = (0..roomy.faces()).map(|f| face_length(roomy, f)).sum();
    6 + lines
}

// Writes the report of a mesh, and answers where it ends. A `for` over the numbers of the faces: each line is written, and nothing comes of it to be collected or summed.
fn write_faces(roomy: RoomyMesh, buffer: &mut [u8]) -> usize
    requires { length (faces_text (seen roomy.mesh)) ≤ length buffer.old }
    ensures end { result ≡ length (faces_text (seen roomy.entry.mesh)) }
    ensures buffer { buffer.new ≡ over buffer.old 0 (faces_text (seen roomy.entry.mesh)) }
{
    let mut printer = Printer { buffer, at: 0 };
    printer.put(b"a b c\n");
    for f in 0..roomy.faces() {
        let [a, b, c] = origins(roomy, f);
        printer.put_line(a, b, c);
    }
    printer.at
}

// Writes the report of a mesh, and answers its length.
#[tactic(auto, using(crate::proofs::Prints::prints), unfolding(crate::specs::Printing::reported, crate::specs::Printing::buffer_reported))]
pub fn report(mesh: MeshRef, buffer: &mut [u8]) -> Result<usize, Refusal>
    ensures answer { result ≡ reported (seen mesh.entry) buffer.old }
    ensures buffer { buffer.new ≡ buffer_reported (seen mesh.entry) buffer.old }
{
    let placed = mesh.sound()?.placed();
    if buffer.len() < faces_length(placed) {
        return Err(Refusal::Buffer);
    }
    Ok(write_faces(placed.roomy(), buffer))
}
