// Meshes that are only looked at, by what is known of them. A mesh that was tested once need not be tested again.
// That a number is one of a half-edge or a face in use stays a premise: half-edges go by number in the caller's memory,
// and a type of mesh and number would be taken apart at each read.
ghost use Rattle.std.specs.Prelude.{◌≡◌};
ghost use Rattle.mesh.specs.Meshes.{seen};
ghost use Rattle.mesh.specs.Sound.{Roomy, Placed, Indexed, Sound};

use crate::MeshRef;

// A mesh whose lists have room for what is in use.
#[derive(Clone, Copy)]
pub struct RoomyMesh<'a> {
    pub mesh: MeshRef<'a>,
    pub ghost roomy: { Roomy (seen mesh) },
}

// A mesh whose half-edges start from vertices in use, which stand in the plan.
#[derive(Clone, Copy)]
pub struct PlacedMesh<'a> {
    pub mesh: MeshRef<'a>,
    pub ghost placed: { Placed (seen mesh) },
}

// A mesh whose half-edges name vertices and twins in use.
#[derive(Clone, Copy)]
pub struct IndexedMesh<'a> {
    pub mesh: MeshRef<'a>,
    pub ghost indexed: { Indexed (seen mesh) },
}

// A mesh of the rectangle.
#[derive(Clone, Copy)]
pub struct SoundMesh<'a> {
    pub mesh: MeshRef<'a>,
    pub ghost sound: { Sound (seen mesh) },
}

// Methods of one line each, and no `From`: they are called in chains, where `into` would want the type. One for each
// type, since each has another fact to give; a trait would be longer.
impl<'a> PlacedMesh<'a> {
    pub fn roomy(self) -> RoomyMesh<'a>
        ensures { result.mesh ≡ self.entry.mesh }
    {
        let PlacedMesh { mesh } = self;
        RoomyMesh { mesh }
    }
}

impl<'a> IndexedMesh<'a> {
    pub fn roomy(self) -> RoomyMesh<'a>
        ensures { result.mesh ≡ self.entry.mesh }
    {
        let IndexedMesh { mesh } = self;
        RoomyMesh { mesh }
    }
}

impl<'a> SoundMesh<'a> {
    pub fn roomy(self) -> RoomyMesh<'a>
        ensures { result.mesh ≡ self.entry.mesh }
    {
        let SoundMesh { mesh } = self;
        RoomyMesh { mesh }
    }

    pub fn placed(self) -> PlacedMesh<'a>
        ensures { result.mesh ≡ self.entry.mesh }
    {
        PlacedMesh { mesh: self.mesh }
    }

    pub fn indexed(self) -> IndexedMesh<'a>
        ensures { result.mesh ≡ self.entry.mesh }
    {
        IndexedMesh { mesh: self.mesh }
    }
}
