// Files of measured vertices, and reports of a mesh.
#![tactic(auto)]

ghost use Rattle.std.specs.Prelude.{◌≡◌};
ghost use Rattle.text.specs.Loads.{fault};

pub mod draping;
mod fields;
mod lines;
pub mod load;
mod names;
mod pieces;
mod printing;
pub mod report;

use mesh::Refusal;

// Why a line is refused, and in which of its fields, from 1; 0 is the whole line, as it is printed.
#[derive(Clone, Copy, PartialEq, Eq, Debug)]
pub struct LineFault {
    pub field: u32,
    pub refusal: Refusal,
}

impl LineFault {
    // A refusal of the whole line.
    pub(crate) fn of_line(refusal: Refusal) -> LineFault
        ensures { result ≡ record { field = 0; refusal = refusal } }
    {
        LineFault { field: 0, refusal }
    }

    // Its line is added.
    pub(crate) fn at_line(self, line: u32) -> Fault
        ensures { result ≡ fault line self.field self.refusal }
    {
        Fault {
            line,
            field: self.field,
            refusal: self.refusal,
        }
    }
}

// Why a file is refused, on which line, from 1, and in which of its fields; field 0 is the whole line, as it is printed.
#[derive(Clone, Copy, PartialEq, Eq, Debug)]
pub struct Fault {
    pub line: u32,
    pub field: u32,
    pub refusal: Refusal,
}

impl Fault {
    // A refusal of a whole line.
    pub(crate) fn of_line(line: u32, refusal: Refusal) -> Fault
        ensures { result ≡ fault line 0 refusal }
    {
        Fault {
            line,
            field: 0,
            refusal,
        }
    }
}
