// The lines of the new segments.
ghost use Rattle.std.specs.Prelude.{◌∷◌, ◌<◌};
ghost use Rattle.normalize_tables.specs.News.{first_of, new_at};
ghost use Rattle.writers.specs.Writers.{Puts, pieces_to};
ghost use Rattle.rewrite.specs.Pieces.{new_piece};

use new_ids::rows::put_new_id;
use normalize_tables::news::News;
use sequences::repeated::put_repeated;
use writers::writer::Writer;

// The sequence of new segment `j`, behind a tab: its unit's, repeated.
pub fn put_sequence(w: &mut Writer, news: &News, j: usize)
    requires { j < news.now.a.m.segs }
    ensures { Puts w.old (9 ∷ (new_at news.now.text.now news.now.a.b news.now.a.g (first_of news.now.a.m.first) news.now.work.now j).sequence) w.new }
{
    let new = news.new_segment(j);
    let unit = news.segment(new.unit);
    w.put_byte(b'\t');
    put_repeated(w, unit.sequence.of(news.text), new.count);
}

// The line of new segment `j`.
pub fn put_new_segment(w: &mut Writer, news: &News, j: usize)
    requires { j < news.now.a.m.segs }
    ensures { Puts w.old (new_piece news.now.text.now news.now.work.now news.now.a.b news.now.a.g (first_of news.now.a.m.first) j) w.new }
{
    w.put(b"S\t");
    put_new_id(w, news, j);
    put_sequence(w, news, j);
    w.put_byte(b'\n');
}

// The lines of the new segments.
pub fn put_new_segments(w: &mut Writer, news: &News)
    ensures { Puts w.old (pieces_to (new_piece news.now.text.now news.now.work.now news.now.a.b news.now.a.g (first_of news.now.a.m.first)) news.now.a.m.segs) w.new }
{
    for j in 0..news.a.m.segs {
        put_new_segment(w, news, j);
    }
}
