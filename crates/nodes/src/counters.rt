// What is counted of a node over the paths.
ghost use Rattle.std.specs.Prelude.{◌≡◌, ◌+◌, ◌≤◌, ◌<◌, length};
ghost use Rattle.work.specs.Rows.{Small};
ghost use Rattle.nodes.specs.Counters.{counted_of, path_word, counter_words, CounterFits};
ghost use Rattle.nodes.specs.Table.{nodes_end, node_no, counter_no, RowPut};

use tables::entry::PathNo;
use work::work::{number_in, put_row, word, word_of};

// The counters of a node: visits; paths that visit it, and the last of them; adjacent pairs on it and equal ones; runs of two or more,
// the longest of them, and the first path that has one of that length.
#[derive(Clone, Copy)]
pub struct Counter {
    pub visits: usize,
    pub paths: usize,
    pub last: Option<PathNo>,
    pub adjacent: usize,
    pub equal: usize,
    pub runs: usize,
    pub longest: usize,
    pub first: Option<PathNo>,
}

// The counters of node `k`.
#[tactic(auto, unfolding(crate::specs::Table::counter_no))]
pub fn counter_at(work: &[u32], table: usize, k: usize) -> Counter
    requires { nodes_end table (k + 1) ≤ length work.now }
    ensures { result ≡ counter_no work.now table k }
{
    let at = table + 14 * k;
    Counter {
        visits: word(work, at + 6),
        paths: word(work, at + 7),
        last: number_in(work[at + 8]).map(PathNo),
        adjacent: word(work, at + 9),
        equal: word(work, at + 10),
        runs: word(work, at + 11),
        longest: word(work, at + 12),
        first: number_in(work[at + 13]).map(PathNo),
    }
}

// The word for a path that may be missing.
fn path_word(path: Option<PathNo>) -> usize
    requires { path_word path < 4294967296 }
    ensures { result ≡ path_word path }
{
    word_of(path.map(|p| p.0 as usize))
}

// Puts the counters of node `k`.
pub fn put_counter(work: &mut [u32], table: usize, k: usize, c: Counter)
    requires { (nodes_end table (k + 1) ≤ length work.old) × Small (counter_words c) }
    ensures { RowPut work.old work.new table k (node_no work.old table k) c }
{
    let row = [
        c.visits,
        c.paths,
        path_word(c.last),
        c.adjacent,
        c.equal,
        c.runs,
        c.longest,
        path_word(c.first),
    ];
    put_row(work, table + 14 * k + 6, &row);
}

// The counters with a run of `times` steps on this path; `more`: the step behind the run is on the node too.
#[tactic(auto, unfolding(gfa_spec::specs::Runs::bit, crate::specs::Counters::is_longer))]
pub fn counted(c: Counter, times: usize, path: PathNo, more: bool) -> Counter
    requires { CounterFits times path.0 c × (1 ≤ times) }
    ensures { result ≡ counted_of c times path.0 more }
{
    let with = Counter {
        visits: c.visits + times,
        paths: c.paths + usize::from(c.last != Some(path)),
        last: Some(path),
        adjacent: c.adjacent + (times - 1) + usize::from(more),
        equal: c.equal + (times - 1),
        runs: c.runs + usize::from(2 <= times),
        ..c
    };
    if times < 2 || times <= c.longest {
        return with;
    }
    Counter {
        longest: times,
        first: Some(path),
        ..with
    }
}
