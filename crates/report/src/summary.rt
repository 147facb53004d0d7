// The whole report.
ghost use Rattle.std.specs.Prelude.{length};
ghost use Rattle.gfa_spec.specs.Bytes.{ended};
ghost use Rattle.gfa_spec.specs.Calls.{fitted};
ghost use Rattle.reader.specs.Served.{answer_in, Answered};
ghost use Rattle.writers.specs.Writers.{Puts};
ghost use Rattle.report.specs.Totals.{total_lines, report_from, Reportable};

use crate::totals::{Totals, areas_of};
use node_lines::buckets::put_buckets;
use node_lines::output::put_nodes;
use refusals::reason::Reason;
use refusals::refusal::Refusal;
use tables::graph::Graph;
use writers::pieces::put_number_lines;
use writers::writer::Writer;

// The first six lines.
#[tactic(auto, unfolding(gfa_spec::specs::Bytes::bytes, report_spec::specs::Lines::line, report_spec::specs::Lines::number, crate::specs::Totals::total_lines))]
pub fn put_totals(w: &mut Writer, t: Totals, m: usize)
    ensures { Puts w.old (ended (total_lines t m)) w.new }
{
    let lines: [(&[u8], u64); 6] = [
        (b"direct_self_loop_edges", t.links as u64),
        (b"direct_self_loop_nodes", m as u64),
        (b"adjacent_same_node_path_steps", t.nodes as u64),
        (b"adjacent_same_step_path_steps", t.steps as u64),
        (b"repeated_path_runs", t.runs as u64),
        (b"max_repeat_run_len", t.longest as u64),
    ];
    put_number_lines(w, &lines);
}

// The report with the first `top` of `m` nodes.
pub fn put_report(w: &mut Writer, graph: &Graph, t: Totals, m: usize, top: usize)
    requires { Reportable graph.now.text.now graph.now.work.now graph.now.b graph.now.n m }
    ensures { Puts w.old (report_from graph.now.text.now graph.now.work.now graph.now.b graph.now.n m t top) w.new }
{
    let a = areas_of(graph.work, graph.b, graph.n);
    put_totals(w, t, m);
    put_buckets(w, graph.work, a.table, a.lengths, m);
    put_nodes(w, graph, a.ranks, top.min(m));
}

// Measures the report on an empty buffer, and writes it where it fits. `spell_steps` (speller) and `write_text` (normalize_answers) do the same with
// what may be refused and with what is answered with statistics: one function for the three would take what writes as a closure, and the piece besides.
pub fn write_report(
    out: &mut [u8],
    graph: &Graph,
    t: Totals,
    m: usize,
    top: usize,
) -> Result<usize, Refusal>
    requires { Reportable graph.now.text.now graph.now.work.now graph.now.b graph.now.n m }
    ensures { Answered out.old out.new (answer_in result)
        (fitted (length out.old) (report_from graph.now.text.now graph.now.work.now graph.now.b graph.now.n m t top)) }
{
    let room = out.len();
    let mut nothing = [0u8; 0];
    let mut w = Writer::new(&mut nothing, room + 1);
    put_report(&mut w, graph, t, m, top);
    let need = w.at;
    if room < need {
        return Err(Refusal::of(Reason::ShortOutput));
    }
    put_report(&mut Writer::new(out, room + 1), graph, t, m, top);
    Ok(need)
}
