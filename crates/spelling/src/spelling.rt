// The bytes that steps spell, and the first bad step (document 01, "Complement and spelling", refusals 18 and 19).
ghost use Rattle.std.specs.Prelude.{◌≡◌, ◌≤◌, ◌<◌, [], ◌∷◌};
ghost use Rattle.gfa_spec.specs.Sequences.{complement};
ghost use Rattle.gfa_spec.specs.Spelling.{spell};
ghost use Rattle.scan.specs.Places.{Inside};
ghost use Rattle.tables.specs.ByNumber.{segments_of, step_no, steps_from};
ghost use Rattle.spelling.specs.Spelled.{SequenceIs, SpeltIs, BadStepIs};

use refusals::reason::Reason;
use refusals::refusal::Refusal;
use scan::names::is_star;
use scan::places::Place;
use sequences::oriented::put_oriented;
use tables::entry::PathNo;
use tables::graph::Graph;
use tables::path_steps::Steps;
use writers::writer::Writer;

// The sequence of the segment that has the name.
#[tactic(auto, using(crate::proofs::Spelled::sequence_named))]
pub fn sequence_of(graph: &Graph, name: Place) -> Option<Place>
    requires { Inside graph.now.text.now name }
    ensures { SequenceIs graph.now.text.now graph.now.work.now graph.now.b graph.now.n name result }
{
    let Some(no) = graph.named(name) else {
        return None;
    };
    Some(graph.segment(no).sequence)
}

// The refusal of a step, by its name.
fn refused(reason: Reason, name: Place) -> Refusal
    ensures { result ≡ record { reason = reason; line = 0; from = name.start; length = name.size } }
{
    Refusal {
        reason,
        line: 0,
        from: name.start,
        length: name.size,
    }
}

// Puts what step `i` of the table spells.
#[tactic(auto, using(crate::proofs::Spelled::sequence_inside))]
pub fn put_step(w: &mut Writer, graph: &Graph, i: usize) -> Result<(), Refusal>
    requires { i < graph.now.n.steps }
    ensures { SpeltIs graph.now.text.now w.old
        (spell complement (segments_of graph.now.text.now graph.now.work.now graph.now.b graph.now.n) (step_no graph.now.text.now graph.now.work.now graph.now.b i ∷ [])) w.new result }
{
    let step = graph.step(i);
    let Some(place) = sequence_of(graph, step.name) else {
        return Err(refused(Reason::UnknownSegment, step.name));
    };
    let sequence = place.of(graph.text);
    if is_star(sequence) {
        return Err(refused(Reason::StarSegment, step.name));
    }
    put_oriented(w, sequence, step.mark.sign() as usize);
    Ok(())
}

// Puts what some steps spell: their sequences, joined with no regard to overlaps.
pub fn put_spelling(w: &mut Writer, graph: &Graph, steps: Steps) -> Result<(), Refusal>
    requires { steps.end ≤ graph.now.n.steps }
    ensures { SpeltIs graph.now.text.now w.old
        (spell complement (segments_of graph.now.text.now graph.now.work.now graph.now.b graph.now.n) (steps_from graph.now.text.now graph.now.work.now graph.now.b steps.first steps.end)) w.new result }
{
    for i in steps.first..steps.end {
        put_step(w, graph, i)?;
    }
    Ok(())
}

// The first bad step of all paths, in text order. Each path is measured below the limit 0, so nothing is written.
pub fn bad_step(graph: &Graph) -> Result<(), Refusal>
    ensures { BadStepIs graph.now.text.now graph.now.work.now graph.now.b graph.now.n result }
{
    for i in 0..graph.n.paths {
        let path = graph.path(PathNo(i as u32));
        let mut nothing = [0u8; 0];
        put_spelling(&mut Writer::new(&mut nothing, 0), graph, path.steps)?;
    }
    Ok(())
}
