// Steps compared, and maximal runs of equal steps (document 01, "Folding", rule 2).
ghost use Rattle.std.specs.Prelude.{◌≡◌, ◌≤◌, ◌<◌};
ghost use Rattle.gfa_spec.specs.Runs.{same_node, same_step};
ghost use Rattle.scan.specs.Places.{Inside};
ghost use Rattle.tables.specs.ByNumber.{step_of};
ghost use Rattle.runs.specs.Runs.{RunFrom};

use scan::names::same_name;
use std::ops::Range;
use tables::graph::Graph;
use tables::path_steps::Steps;
use tables::rows::StepWords;

// Are the steps on one node?
#[tactic(auto, unfolding(gfa_spec::specs::Runs::same_node, scan::specs::Places::part_at))]
pub fn same_node(text: &[u8], a: StepWords, c: StepWords) -> bool
    requires first { Inside text.now a.name }
    requires second { Inside text.now c.name }
    ensures { result ≡ same_node (step_of text.now a) (step_of text.now c) }
{
    same_name(text, a.name, c.name)
}

// Are they equal? Name and orientation both count.
#[tactic(auto, using(crate::proofs::RunEnds::turned, crate::proofs::RunEnds::turned_alike))]
pub fn same_step(text: &[u8], a: StepWords, c: StepWords) -> bool
    requires first { Inside text.now a.name }
    requires second { Inside text.now c.name }
    ensures { result ≡ same_step (step_of text.now a) (step_of text.now c) }
{
    a.mark == c.mark && same_node(text, a, c)
}

// The end of the maximal run of equal steps from step `i` on, of those before step `end`.
#[tactic(auto, using(crate::proofs::RunEnds::running))]
pub fn run_from(graph: &Graph, i: usize, end: usize) -> usize
    requires low { i < end }
    requires high { end ≤ graph.now.n.steps }
    ensures { RunFrom graph.now.text.now graph.now.work.now graph.now.b i end result }
{
    let first = graph.step(i);
    for j in i + 1..end {
        if !same_step(graph.text, first, graph.step(j)) {
            return j;
        }
    }
    end
}

// The maximal runs of equal steps that are left, of the steps before step `end`: each by its steps, from the first up to the run's end.
#[derive(Drop)]
pub struct Runs<'a, 'g> {
    graph: &'a Graph<'g>,
    at: usize,
    end: usize,
    ghost inside: { end ≤ graph.now.n.steps },
}

impl<'a, 'g> Runs<'a, 'g> {
    ghost use Rattle.runs.specs.RunsLeft.{RunsOf};

    // Those of some steps.
    pub fn of(graph: &'a Graph<'g>, steps: Steps) -> Runs<'a, 'g>
        requires { steps.end ≤ graph.now.n.steps }
        ensures { RunsOf graph.now.text.now graph.now.work.now graph.now.b steps.first steps.end result }
    {
        Runs {
            graph,
            at: steps.first,
            end: steps.end,
        }
    }
}

impl<'a, 'g> Iterator for Runs<'a, 'g> {
    ghost use Rattle.std.specs.Prelude.{◌-◌};
    ghost use Rattle.std.specs.Iterator.{at_most};
    ghost use Rattle.runs.specs.RunsLeft.{RunGiven};

    type Item = Range<usize>;

    ghost next_gives = { RunGiven };

    ghost remaining = { λ s. at_most (s.end - s.at) };

    #[inline]
    fn next(&mut self) -> Option<Range<usize>> {
        if self.end <= self.at {
            return None;
        }
        let start = self.at;
        self.at = run_from(self.graph, start, self.end);
        Some(start..self.at)
    }
}
