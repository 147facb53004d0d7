// The new segments on a unit: rows of its slot, the last of them first (document 01, "Folding", rule 4: a new segment is made at first use).
ghost use Rattle.std.specs.Prelude.{◌<◌};
ghost use Rattle.new_segs.specs.Chains.{MadeIs};
ghost use Rattle.new_segs.specs.Makes.{Making};
ghost use Rattle.normalize_tables.specs.News.{first_of};

use normalize_tables::news::News;
use normalize_tables::rows::{UnitRun, unit_slots};
use slots::walks::SlotRows;

// The last new segment that was made of the run's unit and length, if there is one.
#[tactic(auto, using(crate::proofs::Chaining::searching))]
pub fn made_for(news: &News, run: UnitRun) -> Option<usize>
    requires { Making news.now.text.now news.now.work.now news.now.a.b news.now.a.n news.now.a.g (first_of news.now.a.m.first) news.now.a.m.segs × (run.unit.0 < news.now.a.n.segs) }
    ensures { MadeIs news.now.work.now news.now.a.g news.now.a.m.segs run.unit.0 run.count result }
{
    let slots = unit_slots(news.a.n, news.a.g);
    for j in SlotRows::of(news.work, slots, run.unit.0 as usize) {
        if news.new_segment(j).count == run.count {
            return Some(j);
        }
    }
    None
}
