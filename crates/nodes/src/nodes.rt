// The node table: a row of fourteen words for each node with a self-link, in the order of first self-links. Its words: start and length
// of the name, the word for the segment's number, the sequence's length, self-links, their orientation pairs, and eight counters. A row is read and
// put by the table's place and its number, as those of crate tables: a struct of both would be made anew for each row that is put.
ghost use Rattle.std.specs.Prelude.{true, ◌≡◌, ◌+◌, ◌≤◌, ◌<◌, length};
ghost use Rattle.gfa_spec.specs.Reading.{is_orientation};
ghost use Rattle.scan.specs.Places.{Inside};
ghost use Rattle.nodes.specs.Counters.{no_counter};
ghost use Rattle.nodes.specs.Table.{nodes_end, node_no, NodeRead, counter_no, RowPut, SmallNode, NamesInside, SearchIs, segment_word, weight_of, marked_of, row_with_link};

use crate::counters::{Counter, put_counter};
use scan::names::same_name;
use scan::places::Place;
use tables::entry::SegmentNo;
use tables::rows::LinkWords;
use work::work::{number_in, put_row, word, word_of};

// What the links say of a node: its name, its segment's number, the sequence's length, its self-links, their pairs.
#[derive(Clone, Copy)]
pub struct NodeWords {
    pub name: Place,
    pub number: Option<SegmentNo>,
    pub long: usize,
    pub links: usize,
    pub bits: usize,
}

// The word for a segment's number that may be missing; `path_word` is that of a path. Inlined, each caller would need a law, since what a closure makes
// of a number is known only by the cases of that number.
fn segment_word(number: Option<SegmentNo>) -> usize
    requires { segment_word number < 4294967296 }
    ensures { result ≡ segment_word number }
{
    word_of(number.map(|k| k.0 as usize))
}

// The word behind the first `m` rows.
pub fn nodes_end(work: &[u32], table: usize, m: usize) -> usize
    requires { nodes_end table m ≤ length work.now }
    ensures { result ≡ nodes_end table m }
{
    table + 14 * m
}

// What the links say of node `k`.
#[tactic(auto, unfolding(crate::specs::Table::node_no))]
pub fn node_at(work: &[u32], table: usize, k: usize) -> NodeWords
    requires { nodes_end table (k + 1) ≤ length work.now }
    ensures { NodeRead work.now table k result }
{
    let at = table + 14 * k;
    let name = Place {
        start: word(work, at),
        size: word(work, at + 1),
    };
    NodeWords {
        name,
        number: number_in(work[at + 2]).map(SegmentNo),
        long: word(work, at + 3),
        links: word(work, at + 4),
        bits: word(work, at + 5),
    }
}

// Puts row `k`: nothing is counted on paths yet.
#[tactic(auto, unfolding(work::specs::Rows::word_of))]
pub fn put_node(work: &mut [u32], table: usize, k: usize, w: NodeWords)
    requires { (nodes_end table (k + 1) ≤ length work.old) × SmallNode w }
    ensures { RowPut work.old work.new table k w no_counter }
{
    let row = [
        w.name.start,
        w.name.size,
        segment_word(w.number),
        w.long,
        w.links,
        w.bits,
    ];
    put_row(work, table + 14 * k, &row);
    let none = Counter {
        visits: 0,
        paths: 0,
        last: None,
        adjacent: 0,
        equal: 0,
        runs: 0,
        longest: 0,
        first: None,
    };
    put_counter(work, table, k, none);
}

// The number of the node, of `count`, that has the name: row after row.
#[tactic(auto, using(crate::proofs::Finding::finding))]
pub fn find_row(text: &[u8], work: &[u32], table: usize, count: usize, name: Place) -> Option<usize>
    requires { NamesInside text.now work.now table count × Inside text.now name }
    ensures { SearchIs text.now work.now table count name result }
{
    for i in 0..count {
        let here = node_at(work, table, i).name;
        if same_name(text, here, name) {
            return Some(i);
        }
    }
    None
}

// The weight of an orientation pair: ++ 1, +- 2, -+ 4, -- 8; where one is no sign, 0.
pub fn weight(from: usize, to: usize) -> usize
    ensures { (result ≡ weight_of from to) × (result ≤ 8) × (is_orientation from ≡ true → is_orientation to ≡ true → 1 ≤ result) }
{
    if from == 43 {
        if to == 43 {
            return 1;
        }
        if to == 45 {
            return 2;
        }
        return 0;
    }
    if from == 45 {
        if to == 43 {
            return 4;
        }
        if to == 45 {
            return 8;
        }
    }
    0
}

// The orientation pairs with one more.
pub fn marked(bits: usize, from: usize, to: usize) -> usize
    requires { bits < 16 }
    ensures { (result ≡ marked_of bits from to) × (result < 24) }
{
    let w = weight(from, to);
    if w == 0 {
        return bits;
    }
    if bits / w % 2 == 1 {
        return bits;
    }
    bits + w
}

// Counts a link for node `k`.
pub fn count_link(work: &mut [u32], table: usize, k: usize, l: LinkWords)
    requires { (nodes_end table (k + 1) ≤ length work.old) × ((node_no work.old table k).links < 2097152) × ((node_no work.old table k).bits < 16) }
    ensures { RowPut work.old work.new table k (row_with_link (node_no work.old table k) l) (counter_no work.old table k) }
{
    let w = node_at(work, table, k);
    let pair = [
        w.links + 1,
        marked(w.bits, l.leaves.sign() as usize, l.enters.sign() as usize),
    ];
    put_row(work, table + 14 * k + 4, &pair);
}
