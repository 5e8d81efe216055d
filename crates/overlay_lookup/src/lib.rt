// A lookup by first key in a table laid over another, each in a lent pool: the keys under it, as a part of the school's pool if the school has the key, else
// of the maker's.
//
// `lookup` says where the run lies, as C is answered, and `run_of` lends the run itself; both take pools and headers one by one, as C and Rust link them. Nothing is asked of pools, headers or key; where the tables are
// refused, or neither has the key, the run is empty.
#![tactic(auto)]

ghost use Rattle.std.specs.Prelude.{◌≡◌, ◌<◌};
ghost use Rattle.refusal.specs.Number.{given};
ghost use Rattle.overlay_lookup.specs.Lookup.{lookup_number, found_in, no_run, looked_up, run_in};

use column_trie::ColumnTrie;
use overlay_checks::Laid;
use refusal::Refusal;
use seek::SeekStrategy;
use sound_table::Sound;

// Where the keys under a first key lie in a table's pool: `len` words from `from` on.
#[derive(Clone, Copy)]
pub struct Run {
    pub from: usize,
    pub len: usize,
}

// The run is `len` words from `from` on, of the school's pool if `from_school` is true, else of the maker's. Without a run both numbers are 0. C is handed
// this struct by value (include/ducatbriar.h), so `number` stands there for a Result and the run for an Option.
#[repr(C)]
#[derive(Clone, Copy)]
pub struct LookedUp {
    pub number: u64,
    pub from_school: bool,
    pub from: usize,
    pub len: usize,
}

impl LookedUp {
    fn none(number: u64) -> Self
        ensures { result ≡ no_run number }
    {
        Self {
            number,
            from_school: false,
            from: 0,
            len: 0,
        }
    }
}

// 6 on either and 17, then 1: a table of one column has no keys below its first.
#[tactic(auto, unfolding(crate::specs::Lookup::lookup_number))]
fn check(laid: &Laid) -> Result<(), Refusal>
    ensures { given result ≡ lookup_number laid.now.school_pool.now laid.now.school.now laid.now.maker_pool.now laid.now.maker.now }
{
    laid.check()?;
    if laid.school.arity < 2 {
        return Err(Refusal::BadArity);
    }
    Ok(())
}

// The key is searched by halving among the first keys; the place where it is found is the interval of its children.
fn found_in(sound: &Sound, key: u64) -> Option<Run>
    requires { 1 < sound.now.table.now.arity }
    ensures { result ≡ found_in sound.now.pool.now sound.now.table.now key }
{
    let s = seek::partition_point(SeekStrategy::Binary, sound.layer(0).keys, key);
    if !s.hit {
        return None;
    }
    let g = sound.layer(1).group_of(s.offset)?;
    Some(Run {
        from: column_trie::layer_at(*sound.table, 1) + g.from,
        len: g.to - g.from,
    })
}

#[tactic(auto, unfolding(crate::specs::Lookup::looked_up))]
pub fn lookup(
    school_pool: &[u64],
    school: ColumnTrie,
    maker_pool: &[u64],
    maker: ColumnTrie,
    key: u64,
) -> LookedUp
    ensures { result ≡ looked_up school_pool.now school maker_pool.now maker key }
{
    let laid = Laid {
        school_pool,
        school: &school,
        maker_pool,
        maker: &maker,
    };
    if let Err(refused) = check(&laid) {
        return LookedUp::none(refused.number());
    }
    let schools = Sound {
        pool: school_pool,
        table: &school,
    };
    if let Some(run) = found_in(&schools, key) {
        return LookedUp {
            number: 0,
            from_school: true,
            from: run.from,
            len: run.len,
        };
    }
    let makers = Sound {
        pool: maker_pool,
        table: &maker,
    };
    let Some(run) = found_in(&makers, key) else {
        return LookedUp::none(0);
    };
    LookedUp {
        number: 0,
        from_school: false,
        from: run.from,
        len: run.len,
    }
}

// The run itself.
pub fn run_of<'a>(
    school_pool: &'a [u64],
    school: ColumnTrie,
    maker_pool: &'a [u64],
    maker: ColumnTrie,
    key: u64,
) -> &'a [u64]
    ensures { result.now ≡ run_in school_pool.now maker_pool.now (looked_up school_pool.now school maker_pool.now maker key) }
{
    let r = lookup(school_pool, school, maker_pool, maker, key);
    let pool = if r.from_school {
        school_pool
    } else {
        maker_pool
    };
    let end = r.from + r.len;
    &pool[r.from..end]
}
