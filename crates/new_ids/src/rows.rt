// The IDs of the new segments.
ghost use Rattle.std.specs.Prelude.{◌≡◌, ◌+◌, ◌<◌, Some};
ghost use Rattle.gfa_spec.specs.Bytes.{same};
ghost use Rattle.normalize_spec.specs.Folding.{usable};
ghost use Rattle.normalize_tables.specs.News.{first_of, new_at};
ghost use Rattle.writers.specs.Writers.{Puts};

use new_names::names::{is_decimal, is_new_name, put_new_name};
use normalize_tables::news::News;
use writers::numbers::put_decimal;
use writers::writer::Writer;

// The number of new segment j, where it has one; else it has a name. No sum is made that could be too large.
#[tactic(auto, unfolding(normalize_spec::specs::Folding::usable, gfa_spec::specs::Decimal::largest64, normalize_tables::specs::News::first_of))]
pub fn new_number(first: Option<u64>, j: usize) -> Option<u64>
    ensures { result ≡ usable (Some (first_of first + j)) }
{
    match first {
        Some(number) if (j as u64) < u64::MAX - number => Some(number + j as u64),
        _ => None,
    }
}

// The ID of new segment j, written.
#[tactic(auto, using(crate::proofs::NewRows::written))]
pub fn put_new_id(w: &mut Writer, news: &News, j: usize)
    requires { j < news.now.a.m.segs }
    ensures { Puts w.old (new_at news.now.text.now news.now.a.b news.now.a.g (first_of news.now.a.m.first) news.now.work.now j).id w.new }
{
    match new_number(news.a.m.first, j) {
        Some(number) => put_decimal(w, number),
        None => {
            let row = news.new_segment(j);
            put_new_name(w, news.segment_id(row.unit), row.count, row.suffix);
        }
    }
}

// Is the name the ID of new segment j?
#[tactic(auto, using(crate::proofs::NewRows::compared))]
pub fn is_new_id(news: &News, j: usize, name: &[u8]) -> bool
    requires { j < news.now.a.m.segs }
    ensures { result ≡ same (new_at news.now.text.now news.now.a.b news.now.a.g (first_of news.now.a.m.first) news.now.work.now j).id name.now }
{
    match new_number(news.a.m.first, j) {
        Some(number) => is_decimal(name, number),
        None => {
            let row = news.new_segment(j);
            is_new_name(news.segment_id(row.unit), row.count, row.suffix, name)
        }
    }
}
