// Nodes by their numbers: the segments of the text first, in their order, and then the new ones.
ghost use Rattle.std.specs.Prelude.{◌≡◌, [], ◌+◌, ◌≤◌, ◌<◌};
ghost use Rattle.std.specs.Prelude.{None};
ghost use Rattle.gfa_spec.specs.Bytes.{nth};
ghost use Rattle.gfa_spec.specs.Decimal.{largest64};
ghost use Rattle.gfa_spec.specs.Records.{segment_number};
ghost use Rattle.scan.specs.Places.{Inside, bytes_in};
ghost use Rattle.tables.specs.ByNumber.{segments_of};
ghost use Rattle.normalize_spec.specs.Folding.{none_made};
ghost use Rattle.normalize_tables.specs.News.{first_of, Suffixed};
ghost use Rattle.normalize_tables.specs.NodeIds.{news_ids};
ghost use Rattle.writers.specs.Writers.{Puts};
ghost use Rattle.new_ids.specs.Ids.{NodeIs, SuffixIs};

use crate::candidates::{is_taken, next_suffix};
use crate::rows::{is_new_id, put_new_id};
use normalize_tables::news::News;
use normalize_tables::rows::UnitRun;
use scan::numbers::number_of;
use scan::places::Place;
use tables::entry::SegmentNo;
use tables::graph::Graph;
use writers::writer::Writer;

// The number of the first new segment: the largest ID plus one, where every ID reads as a number and there is a number behind it.
#[tactic(auto, using(crate::proofs::Largest::growing))]
pub fn first_number(graph: &Graph) -> Option<u64>
    ensures { result ≡ (none_made (segments_of graph.now.text.now graph.now.work.now graph.now.b graph.now.n)).next }
{
    let mut largest: u64 = 0;
    for i in 0..graph.n.segs {
        let id = graph.segment(SegmentNo(i as u32)).id;
        let value = number_of(id.of(graph.text))?;
        largest = largest.max(value);
    }
    largest.checked_add(1)
}

// The ID of node k, written.
pub fn put_id(w: &mut Writer, news: &News, k: usize)
    requires { k < news.now.a.n.segs + news.now.a.m.segs }
    ensures { Puts w.old (nth k (news_ids news.now) []) w.new }
{
    if news.a.n.segs <= k {
        put_new_id(w, news, k - news.a.n.segs);
    } else {
        w.put(news.segment_id(SegmentNo(k as u32)));
    }
}

// The number of the new segment that has the name, which no segment of the text has.
#[tactic(auto, using(crate::proofs::Finding::seeking))]
fn find_new(news: &News, name: Place) -> Option<usize>
    requires { Inside news.now.text.now name × (segment_number (segments_of news.now.text.now news.now.work.now news.now.a.b news.now.a.n) (bytes_in news.now.text.now name) ≡ None) }
    ensures { NodeIs news.now.text.now news.now.work.now news.now.a.b news.now.a.n news.now.a.g (first_of news.now.a.m.first) news.now.a.m.segs name result }
{
    for j in 0..news.a.m.segs {
        if is_new_id(news, j, name.of(news.text)) {
            return Some(news.a.n.segs + j);
        }
    }
    None
}

// The number of the node that has the name: a segment of the text, or a new one.
#[tactic(auto, using(crate::proofs::Finding::seeking_segment, tables::proofs::Named::unnamed_number))]
pub fn find_node(news: &News, name: Place) -> Option<usize>
    requires { Inside news.now.text.now name }
    ensures { NodeIs news.now.text.now news.now.work.now news.now.a.b news.now.a.n news.now.a.g (first_of news.now.a.m.first) news.now.a.m.segs name result }
{
    let graph = Graph {
        text: news.text,
        work: news.work,
        b: news.a.b,
        n: news.a.n,
    };
    match graph.named(name) {
        Some(k) => Some(k.0 as usize),
        None => find_new(news, name),
    }
}

// The first suffix with which the name of the run's unit and length is free.
pub fn free_suffix(news: &News, run: UnitRun) -> usize
    requires suffixed { Suffixed news.now.text.now news.now.work.now news.now.a.b news.now.a.n news.now.a.g (first_of news.now.a.m.first) news.now.a.m.segs }
    requires unit_lt_segs { (run.unit.0 < news.now.a.n.segs) × (run.count ≤ news.now.a.n.steps) × (largest64 ≤ first_of news.now.a.m.first + news.now.a.m.segs) }
    ensures { SuffixIs news.now.text.now news.now.work.now news.now.a.b news.now.a.n news.now.a.g (first_of news.now.a.m.first) news.now.a.m.segs run.unit.0 run.count result }
{
    let graph = Graph {
        text: news.text,
        work: news.work,
        b: news.a.b,
        n: news.a.n,
    };
    let id = news.segment_id(run.unit);
    for suffix in next_suffix(news, id, run.count).. {
        if !is_taken(&graph, id, run.count, suffix) {
            return suffix;
        }
    }
    // Never here: fewer suffixes are taken than there are.
    unreachable!()
}
