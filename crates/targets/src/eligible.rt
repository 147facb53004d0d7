// The eligible segments (document 01, "Folding", rule 1).
ghost use Rattle.std.specs.Prelude.{◌≡◌, ◌<◌};
ghost use Rattle.normalize_spec.specs.Folding.{is_unit};
ghost use Rattle.targets.specs.Markers.{MarksLink, MarksSelfLinks, KeepsUnits, MarksEligible};

use crate::marks::Marker;
use normalize_tables::normalizer::Normalizer;
use normalize_tables::rows::is_marked;
use runs::counts::is_self_link;
use scan::names::is_star;
use tables::entry::{LinkNo, SegmentNo};
use work::work::clear_words;

// Marks the segment of link `i`, where that is a self-link.
#[tactic(auto, using(crate::proofs::EligibleMarks::passing))]
pub fn mark_link(marks: &mut Marker, i: usize)
    requires { i < marks.old.n.links }
    ensures { MarksLink marks.old i marks.new }
{
    let graph = marks.graph();
    let l = graph.link(LinkNo(i as u32));
    if is_self_link(graph.text, l) {
        marks.mark_name(l.from);
    }
}

// Marks the segments with a self-link.
pub fn mark_self_links(marks: &mut Marker)
    ensures { MarksSelfLinks marks.old marks.new }
{
    for i in 0..marks.n.links {
        mark_link(marks, i);
    }
}

// May the sequence be folded? It is not `*`, not empty, and within the cap; cap 0 is no cap.
#[tactic(auto, using(crate::proofs::EligibleMarks::units))]
pub fn is_unit(unit: &[u8], cap: usize) -> bool
    ensures { result ≡ is_unit cap unit.now }
{
    if unit.is_empty() || is_star(unit) {
        return false;
    }
    cap == 0 || unit.len() <= cap
}

// Clears the marks of the segments that may not be folded.
pub fn keep_units(marks: &mut Marker, cap: usize)
    ensures { KeepsUnits cap marks.old marks.new }
{
    for i in 0..marks.n.segs {
        let at = marks.base + i;
        let graph = marks.graph();
        let s = graph.segment(SegmentNo(i as u32));
        let stays = is_marked(graph.work, at) && is_unit(s.sequence.of(graph.text), cap);
        marks.work[at] = u32::from(stays);
    }
}

// Marks the eligible segments.
pub fn mark_eligible(tables: &mut Normalizer, cap: usize)
    ensures { MarksEligible cap tables.old tables.new }
{
    let Normalizer { text, b, n, g, .. } = *tables;
    let work = &mut *tables.work;
    clear_words(work, g.eligible, n.segs);
    let mut marks = Marker {
        text,
        work,
        b,
        n,
        base: g.eligible,
    };
    mark_self_links(&mut marks);
    keep_units(&mut marks, cap);
}
