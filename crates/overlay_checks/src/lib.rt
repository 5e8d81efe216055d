// What a lookup and a cursor ask of two tables, a school's laid over a maker's, before anything else (internal): 6 and 17 in sequence.
#![tactic(auto)]

ghost use Rattle.std.specs.Prelude.{◌≡◌};
ghost use Rattle.refusal.specs.Number.{given};
ghost use Rattle.overlay_checks.specs.Tables.{of_side, tables_number};

use column_trie::ColumnTrie;
use refusal::Refusal;

// Which of the two.
#[derive(Clone, Copy)]
pub enum Side {
    School,
    Maker,
}

impl Side {
    // Of what both have, that of one of them.
    pub fn of<T: Copy>(self, school: T, maker: T) -> T
        ensures { result ≡ of_side self school maker }
    {
        match self {
            Side::School => school,
            Side::Maker => maker,
        }
    }
}

// A school's table laid over a maker's, each in a lent pool; both may lie in one. The headers are lent too, so that handing one out copies none.
#[derive(Clone, Copy)]
pub struct Laid<'a> {
    pub school_pool: &'a [u64],
    pub school: &'a ColumnTrie,
    pub maker_pool: &'a [u64],
    pub maker: &'a ColumnTrie,
}

impl<'a> Laid<'a> {
    // One of the two, with its pool.
    pub fn of(&self, side: Side) -> (&'a [u64], &'a ColumnTrie)
        ensures pool { result.0.now ≡ of_side side self.now.school_pool.now self.now.maker_pool.now }
        ensures table { result.1.now ≡ of_side side self.now.school.now self.now.maker.now }
    {
        (
            side.of(self.school_pool, self.maker_pool),
            side.of(self.school, self.maker),
        )
    }

    // Damage, the school's looked at first; then whether the two are of one shape.
    #[tactic(auto, unfolding(crate::specs::Tables::tables_number))]
    pub fn check(&self) -> Result<(), Refusal>
        ensures { given result ≡ tables_number self.now.school_pool.now self.now.school.now self.now.maker_pool.now self.now.maker.now }
    {
        if !sound_table::undamaged(self.school_pool, *self.school) {
            return Err(Refusal::Damaged);
        }
        if !sound_table::undamaged(self.maker_pool, *self.maker) {
            return Err(Refusal::Damaged);
        }
        if !laid_over::same_shape(*self.school, *self.maker) {
            return Err(Refusal::OtherShape);
        }
        Ok(())
    }
}
