// Internal: how rows are written into the window, one behind another, and one is read from words in which rows lie: each function asks something of its caller by a `requires`.
#![tactic(auto)]

ghost use Rattle.std.specs.Prelude.{◌≡◌, ◌+◌, ◌*◌, ◌≤◌, length, take, drop};
ghost use Rattle.join_query.specs.Query.{max_variables};
ghost use Rattle.join_window.specs.Rows.{zeros_behind};

use join_query::Query;

// The window while rows are written into it: its words, how many a row has, how many rows are written, and whether more exist than fit; a flag and no Result, since the rows count
// also where more exist. That the rows are few is asked by `Open` and no clause here: where a row has no words, one may be written into a window of none.
#[derive(Drop)]
pub struct Window<'a> {
    pub words: &'a mut [u64],
    pub n: usize,
    pub rows: usize,
    pub full: bool,
    pub ghost width: { n ≤ max_variables },
    pub ghost inside: { rows * n ≤ length words.now },
}

impl<'a> Window<'a> {
    ghost use Rattle.std.specs.Prelude.{◌≡◌};
    ghost use Rattle.join_window.specs.Window.{Begun};

    // No row is written yet.
    pub fn new(words: &'a mut [u64], n: usize) -> Window<'a>
        requires { n ≤ max_variables }
        ensures same_words { (result.words.ghost_name ≡ words.entry.ghost_name) × (result.words.now ≡ words.old) }
        ensures begun { Begun n result }
    {
        Window {
            words,
            n,
            rows: 0,
            full: false,
        }
    }
}

impl Window<'_> {
    ghost use Rattle.std.specs.Prelude.{take};
    ghost use Rattle.query.specs.Window.{emit};
    ghost use Rattle.join_window.specs.Window.{progress, Open, Wrote};

    // Writes one row behind the others, by variable number, or says that it does not fit.
    pub fn emit(&mut self, row: &[u64; Query::MAX_VARIABLES])
        requires { Open self.old.n self.old }
        ensures { Wrote self.old self.new (emit self.old.n (progress self.old) (take self.old.n row.now)) }
    {
        let base = self.rows * self.n;
        let end = base + self.n;
        if self.words.len() < end {
            self.full = true;
            return;
        }
        self.words[base..end].copy_from_slice(&row[..self.n]);
        self.rows += 1;
    }
}

// The row of the n words from `base` on, zeros behind.
pub fn row_at(words: &[u64], base: usize, n: usize) -> [u64; Query::MAX_VARIABLES]
    requires { (n ≤ max_variables) × (base + n ≤ length words.now) }
    ensures { result ≡ zeros_behind (take n (drop base words.now)) }
{
    let mut row = [0u64; Query::MAX_VARIABLES];
    row[..n].copy_from_slice(&words[base..base + n]);
    row
}
