// Which pairs of cursors are states of a cursor over a table laid over another (internal): what every call of such a cursor asks first.
//
// The pair is two cursors by value, one on each table (the crate laid_iter). `check` makes the checks 6, 17 and 7 for any pools, headers and pair; the crate overlay_iter
// has the calls. A cursor below depth 1 is taken up to the first key that it was opened from, by the plain cursor's own `up`.
#![tactic(auto)]

ghost use Rattle.std.specs.Prelude.{◌≡◌};
ghost use Rattle.refusal.specs.Number.{given};
ghost use Rattle.overlay_place.specs.Pairs.{climbed, leads, least, passed_below, started, abreast, owner_walks, firsts, below_root, pair_stands, pair_refusal};

use column_trie::ColumnTrie;
use column_trie_iter::KeyAnswer;
use column_trie_place::ColumnTrieIter;
use laid_iter::LaidIter;
use overlay_checks::Laid;
use refusal::Refusal;

// What every call asks first: 6 on either and 17, then 7 for a pair that is no state.
#[tactic(auto, unfolding(crate::specs::Pairs::pair_refusal))]
pub fn check(laid: &Laid, iter: LaidIter) -> Result<(), Refusal>
    ensures { given result ≡ pair_refusal laid.now.school_pool.now laid.now.school.now laid.now.maker_pool.now laid.now.maker.now iter }
{
    laid.check()?;
    if !stands(laid, iter) {
        return Err(Refusal::BadCursor);
    }
    Ok(())
}

// Whether the pair is a state: each of the two stands, and they stand together.
#[tactic(auto, unfolding(crate::specs::Pairs::pair_stands))]
fn stands(laid: &Laid, iter: LaidIter) -> bool
    ensures { result ≡ pair_stands laid.now.school_pool.now laid.now.school.now laid.now.maker_pool.now laid.now.maker.now iter }
{
    column_trie_place::place_of(laid.school_pool, *laid.school, iter.school).is_ok()
        && column_trie_place::place_of(laid.maker_pool, *laid.maker, iter.maker).is_ok()
        && (iter.at_root()
            || started(*laid.school, iter.school)
                && started(*laid.maker, iter.maker)
                && stands_below_root(laid, iter))
}

// The test below the root.
#[tactic(auto, unfolding(crate::specs::Pairs::below_root))]
fn stands_below_root(laid: &Laid, iter: LaidIter) -> bool
    ensures { result ≡ below_root laid.now.school_pool.now laid.now.school.now laid.now.maker_pool.now laid.now.maker.now iter }
{
    let f = firsts(laid, iter);
    let a = column_trie_iter::key(laid.school_pool, *laid.school, f.school);
    let b = column_trie_iter::key(laid.maker_pool, *laid.maker, f.maker);
    let present = least(a, b);
    owner_walks(iter, leads(a, b)) && (!present.found || abreast(laid, f, present.key))
}

// The pair at depth 1 from which this one was opened.
fn firsts(laid: &Laid, iter: LaidIter) -> LaidIter
    ensures { result ≡ firsts laid.now.school_pool.now laid.now.school.now laid.now.maker_pool.now laid.now.maker.now iter }
{
    LaidIter {
        school: climb(laid.school_pool, *laid.school, iter.school),
        maker: climb(laid.maker_pool, *laid.maker, iter.maker),
    }
}

// Whether no cursor but that of the present key's owner is below depth 1.
fn owner_walks(iter: LaidIter, school_leads: bool) -> bool
    ensures { result ≡ owner_walks iter school_leads }
{
    if school_leads {
        return iter.maker.depth <= 1;
    }
    iter.school.depth <= 1
}

// Whether the two, at depth 1, each stand on their first key not below the present one.
#[tactic(auto, unfolding(crate::specs::Pairs::abreast))]
fn abreast(laid: &Laid, iter: LaidIter, key: u64) -> bool
    ensures { result ≡ abreast laid.now.school_pool.now laid.now.school.now laid.now.maker_pool.now laid.now.maker.now iter key }
{
    passed_below(laid.school_pool, *laid.school, iter.school, key)
        && passed_below(laid.maker_pool, *laid.maker, iter.maker, key)
}

// Up to depth 1, from below it.
fn climb(pool: &[u64], table: ColumnTrie, iter: ColumnTrieIter) -> ColumnTrieIter
    ensures { result ≡ climbed pool.now table iter }
{
    let mut it = iter;
    for _ in 1..iter.depth {
        it = column_trie_iter::up(pool, table, it).iter;
    }
    it
}

// Below the root, unless the table has no rows.
fn started(table: ColumnTrie, iter: ColumnTrieIter) -> bool
    ensures { result ≡ started table iter }
{
    0 < iter.depth || table.data_len[0] == 0
}

// Whether the key before the cursor's, if there is one, is below the given one.
#[tactic(auto, unfolding(crate::specs::Pairs::passed_below))]
fn passed_below(pool: &[u64], table: ColumnTrie, iter: ColumnTrieIter, key: u64) -> bool
    ensures { result ≡ passed_below pool.now table iter key }
{
    if iter.slice_offset == 0 {
        return true;
    }
    let before = ColumnTrieIter {
        slice_offset: iter.slice_offset - 1,
        ..iter
    };
    column_trie_iter::key(pool, table, before).key < key
}

// Whether the first of two answers has the present key, the least of both.
pub fn leads(a: KeyAnswer, b: KeyAnswer) -> bool
    ensures { result ≡ leads a b }
{
    a.found && (!b.found || a.key <= b.key)
}

// The answer that has the present key.
pub fn least(a: KeyAnswer, b: KeyAnswer) -> KeyAnswer
    ensures { result ≡ least a b }
{
    if leads(a, b) {
        return a;
    }
    b
}
