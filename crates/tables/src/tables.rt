// Where the tables are and how many rows they have.
ghost use Rattle.std.specs.Prelude.{◌≡◌, ◌+◌, ◌≤◌};
ghost use Rattle.tables.specs.Tables.{Few, one_more, bases_for};

// How many words a row has, table by table.
pub const LINE: usize = 3;

pub const SEGMENT: usize = 7;

pub const LINK: usize = 8;

pub const PATH: usize = 5;

pub const STEP: usize = 3;

// Where the tables begin, in words of the work area; `heads`: the words of the slots in which segments are found by their IDs, up to the links.
#[derive(Clone, Copy)]
pub struct Bases {
    pub lines: usize,
    pub segs: usize,
    pub heads: usize,
    pub links: usize,
    pub paths: usize,
    pub steps: usize,
}

// How many rows each table has: a type of its own beside `Bases`, so that no place is taken for a number of rows.
#[derive(Clone, Copy)]
pub struct Counts {
    pub lines: usize,
    pub segs: usize,
    pub links: usize,
    pub paths: usize,
    pub steps: usize,
}

// The tables, one behind the other, with room for a tally; each but the last has a row to spare, and there is a slot more than segments.
pub fn bases_of(t: Counts) -> Bases
    requires { (t.lines ≤ 2097152) × (t.segs ≤ 2097152) × (t.links ≤ 2097152) × (t.paths ≤ 2097152) }
    ensures { result ≡ bases_for t }
{
    let segs = LINE * t.lines + LINE;
    let heads = segs + SEGMENT * t.segs + SEGMENT;
    let links = heads + t.segs + 1;
    let paths = links + LINK * t.links + LINK;
    let steps = paths + PATH * t.paths + PATH;
    Bases {
        lines: 0,
        segs,
        heads,
        links,
        paths,
        steps,
    }
}

// The counts with one line more, and so many rows.
pub fn one_more(n: Counts, segs: usize, links: usize, paths: usize, steps: usize) -> Counts
    requires { Few n × (segs ≤ 1) × (links ≤ 1) × (paths ≤ 1) × (steps ≤ 1048576) }
    ensures { result ≡ one_more n segs links paths steps }
{
    Counts {
        lines: n.lines + 1,
        segs: n.segs + segs,
        links: n.links + links,
        paths: n.paths + paths,
        steps: n.steps + steps,
    }
}
