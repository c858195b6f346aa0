// The lines of names.
ghost use Rattle.std.specs.Prelude.{◌≡◌};
ghost use Rattle.text.specs.Lines.{columns, vertex_names};

// In which order the three numbers of a vertex stand on a line.
#[derive(Clone, Copy, PartialEq, Eq, Debug)]
pub enum Columns {
    EastNorthHeight,
    EastHeightNorth,
    NorthEastHeight,
    NorthHeightEast,
    HeightEastNorth,
    HeightNorthEast,
}

const ALL_COLUMNS: [Columns; 6] = [
    Columns::EastNorthHeight,
    Columns::EastHeightNorth,
    Columns::NorthEastHeight,
    Columns::NorthHeightEast,
    Columns::HeightEastNorth,
    Columns::HeightNorthEast,
];

impl Columns {
    // Line 3, where the columns are in this order.
    fn names(self) -> &'static [u8]
        ensures { result.now ≡ vertex_names self }
    {
        match self {
            Columns::EastNorthHeight => b"east north height",
            Columns::EastHeightNorth => b"east height north",
            Columns::NorthEastHeight => b"north east height",
            Columns::NorthHeightEast => b"north height east",
            Columns::HeightEastNorth => b"height east north",
            Columns::HeightNorthEast => b"height north east",
        }
    }
}

// The order of the columns that a line names.
pub fn named_columns(line: &[u8]) -> Option<Columns>
    ensures { result ≡ columns line.now }
{
    ALL_COLUMNS
        .into_iter()
        .find(|columns| line == columns.names())
}
