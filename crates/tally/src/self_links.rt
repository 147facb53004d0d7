// One pass over the links makes the rows of the node table.
ghost use Rattle.std.specs.Prelude.{◌≤◌, ◌<◌, length};
ghost use Rattle.scan.specs.Places.{Inside};
ghost use Rattle.tally.specs.Tabled.{LinkReady};
ghost use Rattle.tally.specs.Countings.{AddsNode, AddsLink, FindsNodes};

use crate::counting::Counting;
use nodes::nodes::{NodeWords, count_link, find_row, marked, put_node};
use nodes::segment::segment_of;
use runs::counts::is_self_link;
use tables::entry::LinkNo;
use tables::rows::LinkWords;

// Puts the row of a new node behind the others, by its first self-link; it is not counted among them yet.
pub fn add_node(nodes: &mut Counting, l: LinkWords)
    requires { (length nodes.old.text.now ≤ 1048576) × (nodes.old.m < nodes.old.n.links) × Inside nodes.old.text.now l.from }
    ensures { AddsNode nodes.old l nodes.new }
{
    let graph = nodes.graph();
    let table = graph.end();
    let known = segment_of(&graph, l.from);
    let row = NodeWords {
        name: l.from,
        number: known.number,
        long: known.long,
        links: 1,
        bits: marked(0, l.leaves.sign() as usize, l.enters.sign() as usize),
    };
    put_node(nodes.work, table, nodes.m, row);
}

// Counts link `i`, where it is a self-link, for its node.
pub fn add_link(nodes: &mut Counting, i: LinkNo)
    requires { LinkReady nodes.old.text.now nodes.old.work.now nodes.old.b nodes.old.n i.0 nodes.old.m }
    ensures { AddsLink nodes.old i.0 nodes.new }
{
    let m = nodes.m;
    let graph = nodes.graph();
    let table = graph.end();
    let l = graph.link(i);
    if !is_self_link(graph.text, l) {
        return;
    }
    let Some(k) = find_row(graph.text, graph.work, table, m, l.from) else {
        add_node(nodes, l);
        nodes.m = m + 1;
        return;
    };
    count_link(nodes.work, table, k, l);
}

// Finds the nodes with a self-link, from none on.
pub fn find_nodes(nodes: &mut Counting)
    requires { length nodes.old.text.now ≤ 1048576 }
    ensures { FindsNodes nodes.old nodes.new }
{
    nodes.m = 0;
    for i in 0..nodes.n.links {
        add_link(nodes, LinkNo(i as u32));
    }
}
