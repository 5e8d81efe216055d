// Internal: the opening of a depth, and the step to its next key, with the seeks added up.
ghost use Rattle.std.specs.Prelude.{◌≡◌, ◌<◌, get_or};
ghost use Rattle.relation.specs.Order.{pick};
ghost use Rattle.ring_sort.specs.Sorted.{key_at};
ghost use Rattle.leapfrog_search.specs.Ring.{SameAtoms};
ghost use Rattle.stretches.specs.Whole.{WholeAgreed};
ghost use Rattle.join_depths.specs.Depth.{Standing, Fresh, Opening, Onward, since_of};

use join_openings::{Join, open_all};
use leapfrog_search::{Landed, Searched};
use query::MAX_ATOMS;
use stretches::{State, whole_init, whole_next};

// A call's answer, its seeks added to those before; 2^64 - 1 stands for that and all above.
fn since(before: u64, s: Searched) -> Searched
    ensures { result ≡ since_of before s }
{
    Searched {
        seeks: before.saturating_add(s.seeks),
        ..s
    }
}

// Opens a depth and finds its first key: the atoms that take part are opened in atom order, and the leapfrog over their runs is begun. Where one has no keys,
// nothing is searched, and the place that comes with no key says nothing. `Standing` is a clause in four and no type's: here and in `open_from` it is of places in
// the state that is written, of which it no longer holds then, in `descend` and `descend_after` of arrays of the call's own.
pub fn open(
    join: &Join,
    depth: usize,
    state: &mut State,
    ring: &mut [usize; MAX_ATOMS],
    by_atom: &mut [usize; MAX_ATOMS],
    seeks: u64,
) -> Searched
    requires standing { Standing join.now.leap.pool.now join.now.plan.now join.now.leap.ends.now join.now.n depth state.old.at state.old.own }
    requires depth_lt_n { (depth < join.now.n) × Fresh state.old join.now.leap.ends.now ring.old by_atom.old }
    ensures { Opening join.now.leap.pool.now join.now.plan.now join.now.leap.ends.now join.now.n depth state.old.at state.old.own state.new ring.new by_atom.new seeks result }
{
    if !open_all(join, depth, state, ring, by_atom) {
        return Searched {
            landed: Landed::Nothing { p: 0 },
            seeks,
        };
    }
    let k = join.plan[depth].count;
    since(seeks, whole_init(&join.leap, state, ring, k))
}

// The ring itself, or the one in atom order.
fn chosen<'a>(
    last: bool,
    ring: &'a [usize; MAX_ATOMS],
    by_atom: &'a [usize; MAX_ATOMS],
) -> &'a [usize; MAX_ATOMS]
    ensures { result.now ≡ pick last ring.now by_atom.now }
{
    if last {
        return ring;
    }
    by_atom
}

// The next key of a depth. After a descent below it the ring is in atom order again and begins at its first place; at the last depth it goes on as it is.
pub fn onward<'a>(
    join: &Join,
    state: &mut State,
    ring: &'a [usize; MAX_ATOMS],
    by_atom: &'a [usize; MAX_ATOMS],
    k: usize,
    p: usize,
    last: bool,
    seeks: u64,
) -> Searched
    requires whole_agreed { WholeAgreed join.now.leap.pool.now state.old join.now.leap.ends.now by_atom.now k (key_at join.now.leap.pool.now state.old.at (get_or by_atom.now 0 0)) p }
    requires same_atoms { SameAtoms by_atom.now ring.now k }
    ensures { Onward join.now.leap.pool.now join.now.leap.ends.now ring.now by_atom.now k p last state.old state.new seeks result }
{
    let turn = chosen(last, ring, by_atom);
    let start = if last { p } else { 0 };
    since(seeks, whole_next(&join.leap, state, turn, k, start))
}
