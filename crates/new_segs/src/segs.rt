// New segments: one row more (document 01, "Folding", rules 4 and 5).
ghost use Rattle.std.specs.Prelude.{◌≤◌, ◌<◌};
ghost use Rattle.new_segs.specs.Makes.{Making, SuffixFor, Wanted, RowFor, SegmentMade};
ghost use Rattle.normalize_tables.specs.News.{first_of};

use new_ids::ids::free_suffix;
use new_ids::rows::new_number;
use normalize_tables::layout::Area;
use normalize_tables::news::News;
use normalize_tables::rows::{NewSegmentWords, UnitRun, put_new_segment, unit_slots};

// The suffix of the next new segment: 0 where its ID is a number, else the first that is free.
#[tactic(auto, using(crate::proofs::NextIds::suffixing))]
pub fn new_suffix(news: &News, run: UnitRun) -> usize
    requires { Making news.now.text.now news.now.work.now news.now.a.b news.now.a.n news.now.a.g (first_of news.now.a.m.first) news.now.a.m.segs × (run.unit.0 < news.now.a.n.segs) × (run.count ≤ news.now.a.n.steps) }
    ensures { SuffixFor news.now.text.now news.now.work.now news.now.a.b news.now.a.n news.now.a.g (first_of news.now.a.m.first) news.now.a.m.segs run.unit.0 run.count result }
{
    match new_number(news.a.m.first, news.a.m.segs) {
        Some(_) => 0,
        None => free_suffix(news, run),
    }
}

// The row of the next new segment, of the run's unit and length, which none is of yet.
pub fn new_row(news: &News, run: UnitRun) -> NewSegmentWords
    requires { Wanted news.now.text.now news.now.work.now news.now.a.b news.now.a.n news.now.a.g (first_of news.now.a.m.first) news.now.a.m.segs run.unit.0 run.count }
    ensures { RowFor news.now.text.now news.now.work.now news.now.a.b news.now.a.n news.now.a.g (first_of news.now.a.m.first) news.now.a.m.segs run.unit.0 run.count result }
{
    NewSegmentWords {
        unit: run.unit,
        count: run.count,
        suffix: new_suffix(news, run),
    }
}

// Makes it: its row is put behind the others, and into the slot of its unit.
pub fn make_segment(text: &[u8], work: &mut [u32], a: Area, run: UnitRun)
    requires { Wanted text.now work.old a.b a.n a.g (first_of a.m.first) a.m.segs run.unit.0 run.count }
    ensures { SegmentMade text.now work.old work.new a.b a.n a.g (first_of a.m.first) a.m.segs run.unit.0 run.count }
{
    let news = News { text, work, a };
    let row = new_row(&news, run);
    let slots = unit_slots(a.n, a.g);
    put_new_segment(work, a.g, a.m.segs, row);
    slots.add(work, run.unit.0 as usize, a.m.segs);
}
