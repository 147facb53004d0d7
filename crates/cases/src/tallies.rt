// Cases counted, and what became of them.
ghost use Rattle.std.specs.Prelude.{◌≡◌, ◌+◌, ◌≤◌, ◌<◌};

// How many cases were replayed, and how many of them differ.
#[derive(Clone, Copy)]
pub struct Tally {
    pub cases: u64,
    pub differ: u64,
    ghost few: { differ ≤ cases },
}

// One case more; the header of one that differs is printed.
pub fn counted(t: Tally, header: &[u8], agrees: bool) -> Tally
    requires { t.cases < 18446744073709551615 }
    ensures { result.cases ≡ t.cases + 1 }
{
    if agrees {
        return Tally {
            cases: t.cases + 1,
            differ: t.differ,
        };
    }
    io::write_all(1, header);
    io::write_all(1, b"\n");
    Tally {
        cases: t.cases + 1,
        differ: t.differ + 1,
    }
}

// Prints what became of the cases of this name.
pub fn print(name: &[u8], t: Tally) {
    io::write_all(1, name);
    io::write_all(1, b": ");
    io::print_decimal(1, t.cases);
    io::write_all(1, b" replayed, ");
    io::print_decimal(1, t.differ);
    io::write_all(1, b" differ\n");
}
