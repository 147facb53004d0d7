// Marks: a word for each segment, 1 where it is marked.
ghost use Rattle.std.proofs.Props.{props};
ghost use Rattle.scan.specs.Places.{Inside};
ghost use Rattle.tables.specs.Props.{Fits-prop};
ghost use Rattle.targets.specs.Marking.{Markable};

use scan::places::Place;
use tables::graph::Graph;
use tables::tables::{Bases, Counts};

// What marks segments: the tables of a text in which no two segments have one ID, and a word for each segment, from the word `base` on.
#[derive(Drop)]
pub struct Marker<'a, 'b> {
    pub text: &'a [u8],
    pub work: &'b mut [u32],
    pub b: Bases,
    pub n: Counts,
    pub base: usize,
    ghost markable: { Markable text.now work.now b n base } by { Prim.hlevel (props, Fits-prop) },
}

impl<'a, 'b> Marker<'a, 'b> {
    ghost use Rattle.targets.specs.Markers.{MarkerGraph, MarksName};

    // The graph whose segments are marked, as `Normalizer::graph` gives its own.
    pub fn graph(&self) -> Graph<'_>
        ensures { MarkerGraph self.now result }
    {
        Graph {
            text: self.text,
            work: self.work,
            b: self.b,
            n: self.n,
        }
    }

    // Marks the segment that has the name, if one has it.
    pub fn mark_name(&mut self, name: Place)
        requires { Inside self.old.text.now name }
        ensures { MarksName self.old name self.new }
    {
        if let Some(found) = self.graph().named(name) {
            self.work[self.base + found.0 as usize] = 1;
        }
    }
}
