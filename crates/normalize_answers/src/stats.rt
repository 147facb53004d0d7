// The statistics of a normalization (document 01, "Folding", the fourteen counters).
ghost use Rattle.std.specs.Prelude.{◌≡◌};
ghost use Rattle.normalize_answers.specs.Counters.{no_counters, counters, input_counters, InputStats};

use runs::counts::{Pairs, all_pairs, self_links};
use tables::graph::Graph;

// The counters, named and ordered as in the Rust.
#[repr(C)]
#[derive(Clone, Copy)]
pub struct NormalizeSelfLoopsStats {
    pub input_direct_self_loop_edges: usize,
    pub output_direct_self_loop_edges: usize,
    pub input_adjacent_same_node_path_steps: usize,
    pub output_adjacent_same_node_path_steps: usize,
    pub input_adjacent_same_step_path_steps: usize,
    pub output_adjacent_same_step_path_steps: usize,
    pub normalized_nodes: usize,
    pub collapsed_runs: usize,
    pub created_segments: usize,
    pub added_links: usize,
    pub removed_self_loop_links: usize,
    pub paths_changed: usize,
    pub path_steps_before: usize,
    pub path_steps_after: usize,
}

// The counters of a text that is returned as it is: its self-links, its adjacent pairs and its steps, before and after.
pub fn returned_stats(links: usize, pairs: Pairs, steps: usize) -> NormalizeSelfLoopsStats
    ensures { counters result ≡ input_counters links pairs.nodes pairs.steps steps }
{
    NormalizeSelfLoopsStats {
        input_direct_self_loop_edges: links,
        output_direct_self_loop_edges: links,
        input_adjacent_same_node_path_steps: pairs.nodes,
        output_adjacent_same_node_path_steps: pairs.nodes,
        input_adjacent_same_step_path_steps: pairs.steps,
        output_adjacent_same_step_path_steps: pairs.steps,
        normalized_nodes: 0,
        collapsed_runs: 0,
        created_segments: 0,
        added_links: 0,
        removed_self_loop_links: 0,
        paths_changed: 0,
        path_steps_before: steps,
        path_steps_after: steps,
    }
}

// A refusal's counters: all are 0.
pub fn no_stats() -> NormalizeSelfLoopsStats
    ensures { counters result ≡ no_counters }
{
    returned_stats(0, Pairs { nodes: 0, steps: 0 }, 0)
}

// The counters of the tables' text, were it returned as it is.
pub fn input_stats(graph: &Graph) -> NormalizeSelfLoopsStats
    ensures { InputStats graph.now.text.now graph.now.work.now graph.now.b graph.now.n result }
{
    returned_stats(self_links(graph), all_pairs(graph), graph.n.steps)
}
