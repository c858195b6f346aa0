// A spot file carried out on a job.
ghost use Rattle.std.specs.Prelude.{◌≡◌, ℕ, suc, ◌<◌, ◌∷◌, ◌++◌, length, IfOk, MatchResult};
ghost use Rattle.job.specs.declared.Call.TheVariants.{Lay, Add};
ghost use Rattle.mesh.specs.Meshes.{lent, SameLoan};
ghost use Rattle.job.specs.Rule.{state_of};
ghost use Rattle.job.specs.Settings.{SameSettings};
ghost use Rattle.text.specs.Pieces.{pieces, Lacks};
ghost use Rattle.text.specs.Loads.{fault, Loads};
ghost use Rattle.text.specs.ReadBack.{ReadsBack};
ghost use Rattle.text.specs.Scripts.{halts, asks, from_vertices, from_columns, from_plan, script};

use crate::Fault;
use crate::lines::{read_plan, read_vertex};
use crate::names::{Columns, named_columns};
use crate::pieces::cut;
use cost::Cost;
use job::job::Job;
use mesh::{MeshMut, Plan, Refusal, Vertex};
use worklist::Worklist;

// The first line of a text and what follows its end, or the fault of a line that is missing or unended.
fn ended_line(text: &[u8], line: u32, refusal: Refusal) -> Result<(&[u8], &[u8]), Fault>
    ensures { MatchResult result
        (λ p. Lacks 10 p.0.now × (text.now ≡ p.0.now ++ (10 ∷ p.1.now)))
        (λ f. (f ≡ fault line 0 refusal) × Lacks 10 text.now) }
{
    cut(text, b'\n').ok_or(Fault::of_line(line, refusal))
}

// Line 1: answers what follows it.
fn names_line(text: &[u8]) -> Result<&[u8], Fault>
    ensures { MatchResult result
        (λ rest. script text.now ≡ from_plan (pieces 10 rest.now))
        (λ f. script text.now ≡ halts f) }
{
    let (names, rest) = ended_line(text, 1, Refusal::Names)?;
    if names != b"width depth sw se ne nw".as_slice() {
        return Err(Fault::of_line(1, Refusal::Names));
    }
    Ok(rest)
}

// Line 2.
fn plan_line(text: &[u8]) -> Result<(Plan, &[u8]), Fault>
    ensures { MatchResult result
        (λ x. from_plan (pieces 10 text.now) ≡ asks (Lay x.0) (from_columns (pieces 10 x.1.now)))
        (λ f. from_plan (pieces 10 text.now) ≡ halts f) }
{
    let (one, rest) = ended_line(text, 2, Refusal::Values)?;
    let plan = read_plan(one).map_err(|fault| fault.at_line(2))?;
    Ok((plan, rest))
}

// Line 3.
fn columns_line(text: &[u8]) -> Result<(Columns, &[u8]), Fault>
    ensures { MatchResult result
        (λ x. from_columns (pieces 10 text.now) ≡ from_vertices x.0 4 (pieces 10 x.1.now))
        (λ f. from_columns (pieces 10 text.now) ≡ halts f) }
{
    let (names, rest) = ended_line(text, 3, Refusal::Names)?;
    let columns = named_columns(names).ok_or(Fault::of_line(3, Refusal::Names))?;
    Ok((columns, rest))
}

// A line after the third. It and `plan_line` differ in more than a type: in what is read, where, and what then follows.
fn vertex_line(text: &[u8], columns: Columns, line: u32) -> Result<(Vertex, &[u8]), Fault>
    requires { 0 < length text.now }
    ensures asked { MatchResult result
        (λ x. from_vertices columns line (pieces 10 text.now) ≡ asks (Add x.0) (from_vertices columns (suc line) (pieces 10 x.1.now)))
        (λ f. from_vertices columns line (pieces 10 text.now) ≡ halts f) }
    ensures shorter { IfOk result (λ x. length x.1.now < length text.now) }
{
    let (one, rest) = ended_line(text, line, Refusal::Values)?;
    let vertex = read_vertex(one, columns).map_err(|fault| fault.at_line(line))?;
    Ok((vertex, rest))
}

// Adds the vertices on the lines after the third, and answers how many.
fn add_lines<C: Cost, L: Worklist>(
    job: &mut Job<C, L>,
    mesh: &mut MeshMut,
    columns: Columns,
    text: &[u8],
) -> Result<u32, Fault>
    requires { mesh.old.header.now.count ≡ 4 }
    ensures loads { Loads (C.parts job.old.cost) L.order job.old.lookahead
        (state_of (lent mesh.old) (L.waiting job.old.worklist))
        1 (from_vertices columns 4 (pieces 10 text.now)) result
        (state_of (lent mesh.new) (L.waiting job.new.worklist)) }
    ensures loan { SameLoan mesh.old mesh.new }
    ensures settings { SameSettings job.old job.new }
{
    // The vertices are counted here. No `split` with `enumerate`: an unended last line is a fault, and reading stops at the first fault.
    let mut rest = text;
    let mut added = 0u32;
    while !rest.is_empty() {
        let line = added + 4;
        let (w, after) = vertex_line(rest, columns, line)?;
        job.add(mesh, w)
            .map_err(|refusal| Fault::of_line(line, refusal))?;
        added += 1;
        rest = after;
    }
    Ok(added)
}

// Lays the mesh and adds the vertices that a spot file names, up to the first fault; answers how many were added.
#[tactic(auto, using(crate::proofs::Written::reads_back))]
pub fn load<C: Cost, L: Worklist>(
    job: &mut Job<C, L>,
    mesh: &mut MeshMut,
    text: &[u8],
) -> Result<u32, Fault>
    ensures loads { Loads (C.parts job.old.cost) L.order job.old.lookahead
        (state_of (lent mesh.old) (L.waiting job.old.worklist))
        0 (script text.now) result
        (state_of (lent mesh.new) (L.waiting job.new.worklist)) }
    ensures read_back { ReadsBack }
    ensures loan { SameLoan mesh.old mesh.new }
    ensures settings { SameSettings job.old job.new }
{
    let rest = names_line(text)?;
    let (plan, rest) = plan_line(rest)?;
    job.lay(mesh, plan)
        .map_err(|refusal| Fault::of_line(2, refusal))?;
    let (columns, rest) = columns_line(rest)?;
    add_lines(job, mesh, columns, rest)
}
