// A cursor over a table laid over another, as a value: two cursors, one on each table, and what the pair alone tells, without pools and headers. Which pairs are states
// the crate overlay_place says.
#![tactic(auto)]

ghost use Rattle.std.specs.Prelude.{◌≡◌};
ghost use Rattle.overlay_checks.specs.Tables.{of_side};
ghost use Rattle.laid_iter.specs.Cursors.{root_pair, walker, moved, pair_at_root};

use column_trie_place::ColumnTrieIter;
use overlay_checks::Side;

// One cursor on each table; that of a table without rows stays at the root. It is C's struct `ducatbriar_laid_cursor`.
#[repr(C)]
#[derive(Clone, Copy)]
pub struct LaidIter {
    pub school: ColumnTrieIter,
    pub maker: ColumnTrieIter,
}

impl LaidIter {
    pub fn new() -> Self
        ensures { result ≡ root_pair }
    {
        Self {
            school: ColumnTrieIter::new(),
            maker: ColumnTrieIter::new(),
        }
    }

    // The cursor on one of the two tables.
    pub fn of(self, side: Side) -> ColumnTrieIter
        ensures { result ≡ of_side side self.school self.maker }
    {
        side.of(self.school, self.maker)
    }

    // One of the two walks, and the other stays.
    pub fn moved(self, side: Side, iter: ColumnTrieIter) -> Self
        ensures { result ≡ moved side self iter }
    {
        match side {
            Side::School => Self {
                school: iter,
                ..self
            },
            Side::Maker => Self {
                maker: iter,
                ..self
            },
        }
    }

    // The one that is below depth 1 and walks alone; none where both stand at the root or among the first keys.
    pub fn walker(self) -> Option<Side>
        ensures { result ≡ walker self }
    {
        if 1 < self.school.depth {
            return Some(Side::School);
        }
        if 1 < self.maker.depth {
            return Some(Side::Maker);
        }
        None
    }

    // Whether both stand at the root.
    pub fn at_root(self) -> bool
        ensures { result ≡ pair_at_root self }
    {
        self.school.depth == 0 && self.maker.depth == 0
    }
}
