// Rules 4 to 7: the paths transformed, the links settled, the text written, its counters gathered.
ghost use Rattle.std.specs.Prelude.{◌≡◌};
ghost use Rattle.fold.specs.Transforms.{AllKnown};
ghost use Rattle.normalize_answers.specs.Counters.{counters, rewritten_counters};
ghost use Rattle.normalize_answers.specs.Folding.{Marks, PassesText, RewritesText, WriteIs};

use crate::stats::NormalizeSelfLoopsStats;
use crate::written::Written;
use fold::pairs::new_pairs;
use fold::paths::transform;
use normalize_tables::layout::{Area, Made};
use normalize_tables::new_graph::NewGraph;
use normalize_tables::normalizer::Normalizer;
use refusals::reason::Reason;
use refusals::refusal::Refusal;
use relink::settle::{Links, settle_links};
use rewrite::rewritten::put_rewritten;
use rewrite::settled_graph::SettledGraph;
use runs::counts::Pairs;
use tables::graph::Graph;
use writers::writer::Writer;

// What rules 4 to 6 made and counted: new segments and steps, links, and pairs of the new paths.
#[derive(Clone, Copy)]
pub struct Passed {
    pub m: Made,
    pub l: Links,
    pub pairs: Pairs,
}

// The counters of a text that is rewritten: those of the input stay.
pub fn rewritten_stats(
    before: NormalizeSelfLoopsStats,
    nodes: usize,
    m: Made,
    l: Links,
    pairs: Pairs,
) -> NormalizeSelfLoopsStats
    ensures { counters result ≡ rewritten_counters (counters before) nodes m l pairs }
{
    NormalizeSelfLoopsStats {
        input_direct_self_loop_edges: before.input_direct_self_loop_edges,
        output_direct_self_loop_edges: l.loops,
        input_adjacent_same_node_path_steps: before.input_adjacent_same_node_path_steps,
        output_adjacent_same_node_path_steps: pairs.nodes,
        input_adjacent_same_step_path_steps: before.input_adjacent_same_step_path_steps,
        output_adjacent_same_step_path_steps: pairs.steps,
        normalized_nodes: nodes,
        collapsed_runs: m.runs,
        created_segments: m.segs,
        added_links: l.added,
        removed_self_loop_links: l.removed,
        paths_changed: m.changed,
        path_steps_before: before.path_steps_before,
        path_steps_after: m.steps,
    }
}

// Measures the rewritten text on an empty buffer, and writes it where it fits.
pub fn write_text(
    settled: &SettledGraph,
    stats: NormalizeSelfLoopsStats,
    out: &mut [u8],
) -> Result<Written, Refusal>
    ensures { let graph = settled.now.graph in WriteIs graph.text.now graph.work.now graph.a.b graph.a.n graph.a.g graph.a.m settled.now.extra stats out.old out.new result }
{
    let room = out.len();
    let mut nothing = [0u8; 0];
    let mut w = Writer::new(&mut nothing, room + 1);
    put_rewritten(&mut w, settled);
    let need = w.at;
    if room < need {
        return Err(Refusal::of(Reason::ShortOutput));
    }
    put_rewritten(&mut Writer::new(out, room + 1), settled);
    Ok(Written {
        length: need,
        stats,
    })
}

// Rules 4 to 6 on the text whose folded segments are marked: its paths transformed, the new pairs counted, its links settled.
pub fn pass_text(tables: &mut Normalizer) -> Passed
    requires known { AllKnown tables.old.text.now tables.old.work.now tables.old.b tables.old.n }
    requires marks { Marks tables.old.text.now tables.old.work.now tables.old.b tables.old.n tables.old.g.folded }
    ensures { PassesText tables.old result tables.new }
{
    let m = transform(tables);
    let Normalizer { text, b, n, g, .. } = *tables;
    let work = &mut *tables.work;
    let a = Area { b, n, g, m };
    let pairs = new_pairs(work, a);
    let l = settle_links(text, work, a);
    Passed { m, l, pairs }
}

// Rewrites the text whose folded segments are marked: there are `nodes` of them.
pub fn rewrite_text(
    tables: &mut Normalizer,
    nodes: usize,
    stats: NormalizeSelfLoopsStats,
    out: &mut [u8],
) -> Result<Written, Refusal>
    requires known { AllKnown tables.old.text.now tables.old.work.now tables.old.b tables.old.n }
    requires marks { Marks tables.old.text.now tables.old.work.now tables.old.b tables.old.n tables.old.g.folded }
    ensures { RewritesText tables.old nodes stats out.old out.new result tables.new }
{
    let p = pass_text(tables);
    let counted = rewritten_stats(stats, nodes, p.m, p.l, p.pairs);
    let Graph { text, work, b, n } = tables.graph();
    let a = Area {
        b,
        n,
        g: tables.g,
        m: p.m,
    };
    let graph = NewGraph { text, work, a };
    let settled = SettledGraph {
        graph,
        extra: p.l.added,
    };
    write_text(&settled, counted, out)
}
