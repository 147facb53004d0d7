// The search for the first free suffix.
ghost use Rattle.std.specs.Prelude.{◌≡◌, ◌<◌};
ghost use Rattle.gfa_spec.specs.Bytes.{any, same};
ghost use Rattle.normalize_spec.specs.NewNames.{new_name};
ghost use Rattle.tables.specs.Segments.{ids_of};
ghost use Rattle.tables.specs.ByNumber.{segments_of};
ghost use Rattle.normalize_tables.specs.News.{first_of, Suffixed};
ghost use Rattle.new_ids.specs.Ids.{is_kin, Tried};

use crate::rows::new_number;
use new_names::names::{is_new_name, new_name_sum};
use new_names::sanitized::same_sanitized;
use normalize_tables::news::News;
use tables::entry::SegmentNo;
use tables::graph::Graph;

// Has new segment j a name of the same sanitized unit and the same run length?
#[tactic(auto, using(crate::proofs::Kin::kinship))]
pub fn is_kin(news: &News, j: usize, unit: &[u8], count: usize) -> bool
    requires { j < news.now.a.m.segs }
    ensures { result ≡ is_kin news.now.text.now news.now.a.b news.now.a.g (first_of news.now.a.m.first) news.now.work.now unit.now count j }
{
    match new_number(news.a.m.first, j) {
        Some(_) => false,
        None => {
            let row = news.new_segment(j);
            row.count == count && same_sanitized(news.segment_id(row.unit), unit)
        }
    }
}

// The suffix behind that of the last such segment: all before it are taken, and no new segment has it or one behind it.
#[tactic(auto, using(crate::proofs::Kin::backwards_hit))]
pub fn next_suffix(news: &News, unit: &[u8], count: usize) -> usize
    requires { Suffixed news.now.text.now news.now.work.now news.now.a.b news.now.a.n news.now.a.g (first_of news.now.a.m.first) news.now.a.m.segs }
    ensures { Tried news.now.text.now news.now.work.now news.now.a.b news.now.a.n news.now.a.g (first_of news.now.a.m.first) news.now.a.m.segs unit.now count result }
{
    for j in (0..news.a.m.segs).rev() {
        if is_kin(news, j, unit, count) {
            return news.new_segment(j).suffix + 1;
        }
    }
    0
}

// Has a segment of the text the name of a unit, a run length and a suffix? By the slot of the name's sum (R-6): the name itself is not written.
pub fn is_taken(graph: &Graph, unit: &[u8], count: usize, suffix: usize) -> bool
    ensures { result ≡ any (same (new_name unit.now count suffix)) (ids_of (segments_of graph.now.text.now graph.now.work.now graph.now.b graph.now.n)) }
{
    for k in graph.in_slot(new_name_sum(unit, count, suffix)) {
        let id = graph.segment(SegmentNo(k as u32)).id;
        if is_new_name(unit, count, suffix, id.of(graph.text)) {
            return true;
        }
    }
    false
}
