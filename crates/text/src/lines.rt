// The lines of values.
ghost use Rattle.std.specs.Prelude.{◌≡◌};
ghost use Rattle.text.specs.Lines.{plan, vertex, vertex_of};

use crate::LineFault;
use crate::fields::values;
use crate::names::Columns;
use mesh::{Plan, Vertex};

// The plan on line 2.
#[tactic(auto, unfolding(crate::specs::Lines::plan))]
pub fn read_plan(line: &[u8]) -> Result<Plan, LineFault>
    ensures { result ≡ plan line.now }
{
    let [width, depth, sw, se, ne, nw] = values::<6>(line)?;
    Ok(Plan {
        width,
        depth,
        sw,
        se,
        ne,
        nw,
    })
}

// The vertex whose numbers stand in this order: the `match` is the table of the six.
fn arranged(order: Columns, a: u32, b: u32, c: u32) -> Vertex
    ensures { result ≡ vertex_of order a b c }
{
    let (east, north, height) = match order {
        Columns::EastNorthHeight => (a, b, c),
        Columns::EastHeightNorth => (a, c, b),
        Columns::NorthEastHeight => (b, a, c),
        Columns::NorthHeightEast => (c, a, b),
        Columns::HeightEastNorth => (b, c, a),
        Columns::HeightNorthEast => (c, b, a),
    };
    Vertex {
        east,
        north,
        height,
    }
}

// The vertex on a line whose columns are in this order.
#[tactic(auto, unfolding(crate::specs::Lines::vertex))]
pub fn read_vertex(line: &[u8], order: Columns) -> Result<Vertex, LineFault>
    ensures { result ≡ vertex order line.now }
{
    let [a, b, c] = values::<3>(line)?;
    Ok(arranged(order, a, b, c))
}
