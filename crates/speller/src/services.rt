// The service that spells path k (document 01, "The four services").
ghost use Rattle.std.specs.Prelude.{◌≤◌, length};
ghost use Rattle.gfa_spec.specs.Sequences.{complement};
ghost use Rattle.gfa_spec.specs.Spelling.{spell};
ghost use Rattle.gfa_spec.specs.Services.{of_spelt, spell_path};
ghost use Rattle.tables.specs.ByNumber.{segments_of, steps_from};
ghost use Rattle.reader.specs.Served.{answer_in, Answered, Served};

use reader::answers::Answer;
use reader::input::parse_gfa;
use refusals::reason::Reason;
use refusals::refusal::Refusal;
use spelling::spelling::put_spelling;
use tables::entry::PathNo;
use tables::graph::Graph;
use tables::path_steps::Steps;
use work::work::clear;
use writers::writer::Writer;

// What some steps spell. It is measured on an empty buffer, and written where it fits.
fn spell_steps(graph: &Graph, out: &mut [u8], steps: Steps) -> Result<usize, Refusal>
    requires { steps.end ≤ graph.now.n.steps }
    ensures { Answered out.old out.new (answer_in result) (of_spelt (length out.old)
        (spell complement (segments_of graph.now.text.now graph.now.work.now graph.now.b graph.now.n) (steps_from graph.now.text.now graph.now.work.now graph.now.b steps.first steps.end))) }
{
    let room = out.len();
    let mut nothing = [0u8; 0];
    let mut w = Writer::new(&mut nothing, room + 1);
    put_spelling(&mut w, graph, steps)?;
    let need = w.at;
    if room < need {
        return Err(Refusal::of(Reason::ShortOutput));
    }
    // No step is bad, as was seen.
    let _ = put_spelling(&mut Writer::new(out, room + 1), graph, steps);
    Ok(need)
}

// The answer for path `k`: refusals 1 to 17, then 21, then 18 and 19, then 22. The work area holds the tables.
#[tactic(auto, using(reader::proofs::Serving::input_readable, crate::proofs::Serving::path_small))]
fn answer_path(text: &[u8], k: usize, out: &mut [u8], work: &mut [u32]) -> Result<usize, Refusal>
    ensures { Answered out.old out.new (answer_in result) (spell_path text.now k (length out.old) (length work.old)) }
{
    let (b, n) = parse_gfa(text, work)?;
    if n.paths <= k {
        return Err(Refusal::of(Reason::NoPath));
    }
    let graph = Graph { text, work, b, n };
    let path = graph.path(PathNo(k as u32));
    spell_steps(&graph, out, path.steps)
}

// Spells path `k`, counted from 0, into `out`. The work area is all zero afterwards.
#[tactic(auto, using(reader::proofs::Serving::served))]
pub fn spell_path(text: &[u8], k: usize, out: &mut [u8], work: &mut [u32]) -> Answer
    ensures { Served out.old out.new (length work.old) work.new result
        (spell_path text.now k (length out.old) (length work.old)) }
{
    let told = answer_path(text, k, out, work);
    clear(work);
    Answer::from(told)
}
