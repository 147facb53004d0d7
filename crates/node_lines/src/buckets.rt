// The buckets: nodes sorted by length, a line for each group of one length.
ghost use Rattle.std.specs.Prelude.{◌+◌, ◌≤◌, ◌<◌};
ghost use Rattle.gfa_spec.specs.Bytes.{end_line};
ghost use Rattle.writers.specs.Writers.{Puts};
ghost use Rattle.node_lines.specs.Groups.{bucket_of, RowNumbers, GroupIs, BucketsIs};

use nodes::nodes::node_at;
use work::work::word;
use writers::numbers::put_decimal;
use writers::writer::Writer;

// A group: where it starts and ends, its nodes' length and their self-links.
#[derive(Clone, Copy)]
pub struct Group {
    pub start: usize,
    pub end: usize,
    pub long: usize,
    pub links: usize,
}

// The line of a bucket.
pub fn put_bucket_line(w: &mut Writer, long: usize, nodes: usize, links: usize)
    ensures { Puts w.old (end_line (bucket_of long nodes links)) w.new }
{
    w.put(b"length_bucket=");
    put_decimal(w, long as u64);
    w.put_byte(b',');
    put_decimal(w, nodes as u64);
    w.put_byte(b',');
    put_decimal(w, links as u64);
    w.put_byte(b'\n');
}

// The group that starts at number `i` of `m` from the word `nums` on.
pub fn group_at(work: &[u32], table: usize, nums: usize, m: usize, i: usize) -> Group
    requires { RowNumbers work.now table nums m × (i < m) }
    ensures { GroupIs work.now table nums m i result }
{
    let long = node_at(work, table, word(work, nums + i)).long;
    let mut links = 0;
    for j in i..m {
        let here = node_at(work, table, word(work, nums + j));
        if here.long != long {
            return Group {
                start: i,
                end: j,
                long,
                links,
            };
        }
        links += here.links;
    }
    Group {
        start: i,
        end: m,
        long,
        links,
    }
}

// The groups that are left, from number `at` on, of the `m` numbers from the word `nums` on. No slice of the numbers: they lie in one work area with the
// table whose rows they name, and contracts speak of both.
#[derive(Drop)]
pub struct Groups<'a> {
    work: &'a [u32],
    table: usize,
    nums: usize,
    m: usize,
    at: usize,
    ghost numbered: { RowNumbers work.now table nums m },
}

impl<'a> Groups<'a> {
    ghost use Rattle.node_lines.specs.GroupsLeft.{GroupsOf};

    // All groups.
    pub fn of(work: &'a [u32], table: usize, nums: usize, m: usize) -> Groups<'a>
        requires { RowNumbers work.now table nums m }
        ensures { GroupsOf work.now table nums m 0 result }
    {
        Groups {
            work,
            table,
            nums,
            m,
            at: 0,
        }
    }
}

impl<'a> Iterator for Groups<'a> {
    ghost use Rattle.std.specs.Prelude.{◌-◌};
    ghost use Rattle.std.specs.Iterator.{at_most};
    ghost use Rattle.node_lines.specs.GroupsLeft.{GroupGiven};

    type Item = Group;

    ghost next_gives = { GroupGiven };

    ghost remaining = { λ s. at_most (s.m - s.at) };

    #[inline]
    fn next(&mut self) -> Option<Group> {
        if self.m <= self.at {
            return None;
        }
        let g = group_at(self.work, self.table, self.nums, self.m, self.at);
        self.at = g.end;
        Some(g)
    }
}

// Writes all buckets of the `m` nodes whose numbers stand from the word `nums` on.
pub fn put_buckets(w: &mut Writer, work: &[u32], table: usize, nums: usize, m: usize)
    requires { RowNumbers work.now table nums m }
    ensures { BucketsIs w.old work.now table nums m w.new }
{
    for g in Groups::of(work, table, nums, m) {
        put_bucket_line(w, g.long, g.end - g.start, g.links);
    }
}
