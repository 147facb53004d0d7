// The fourteen counters of a normalization.
ghost use Rattle.std.specs.Prelude.{◌≡◌, ◌∷◌, []};

use cases::headers::NONE;
use normalize_answers::stats::NormalizeSelfLoopsStats;

// The counters in their order. Only a normalization has any: another service's are no numbers, like the words that its header lacks.
pub fn counters(service: u8, s: NormalizeSelfLoopsStats) -> [usize; 14]
    ensures { service ≡ 110 → result ≡ (s.input_direct_self_loop_edges ∷ s.output_direct_self_loop_edges ∷ s.input_adjacent_same_node_path_steps ∷ s.output_adjacent_same_node_path_steps ∷ s.input_adjacent_same_step_path_steps ∷ s.output_adjacent_same_step_path_steps ∷ s.normalized_nodes ∷ s.collapsed_runs ∷ s.created_segments ∷ s.added_links ∷ s.removed_self_loop_links ∷ s.paths_changed ∷ s.path_steps_before ∷ s.path_steps_after ∷ []) }
{
    if service != b'n' {
        return [NONE; 14];
    }
    [
        s.input_direct_self_loop_edges,
        s.output_direct_self_loop_edges,
        s.input_adjacent_same_node_path_steps,
        s.output_adjacent_same_node_path_steps,
        s.input_adjacent_same_step_path_steps,
        s.output_adjacent_same_step_path_steps,
        s.normalized_nodes,
        s.collapsed_runs,
        s.created_segments,
        s.added_links,
        s.removed_self_loop_links,
        s.paths_changed,
        s.path_steps_before,
        s.path_steps_after,
    ]
}
