// Which face owns a point; and that every sound mesh tiles its rectangle.
#![tactic(auto)]

ghost use Rattle.std.specs.Prelude.{◌≡◌, true, is_ok};
ghost use Rattle.mesh.specs.Meshes.{seen};
ghost use Rattle.mesh.specs.Sound.{Sound};
ghost use Rattle.tiling.specs.Tiles.{OnGround, EverySoundMeshTiles, located};

use mesh::{MeshRef, Point, Refusal};

// The face that owns w.
pub fn locate(mesh: MeshRef, w: Point) -> Result<usize, Refusal>
    ensures tiles { EverySoundMeshTiles }
    ensures answer { result ≡ located (seen mesh.entry) w }
    ensures found { Sound (seen mesh.entry) → OnGround (seen mesh.entry) w → is_ok result ≡ true }
{
    mesh.sound()?.placed().owner(w).ok_or(Refusal::Unowned)
}
