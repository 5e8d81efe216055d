// Internal: every function asks something of its caller by a `requires`. Makes the plan of a query that passed the checks: structs of plain numbers, made once
// for a call, so that the descent reads no header.
#![tactic(auto)]

ghost use Rattle.std.specs.Prelude.{◌≡◌, ◌*◌, ◌<◌, length};
ghost use Rattle.column_trie.specs.Limits.{max_arity};
ghost use Rattle.query.specs.Limits.{max_atoms};
ghost use Rattle.join_plan.specs.Plan.{above_of, second_of, firsts_end, Low, Opening, AtomOpening, DepthPlanned, Planned, FirstsEnded, Plannable};

use column_trie::{ColumnTrie, layer_at};
use join_checks::{heads, reached};
use join_query::{Atom, Query, Tables};
use stretches::RUN_ENDS;

// A table's opening of a layer: where the keys above the layer start, where its keys start and how many they are, and the same of its intervals.
#[derive(Clone, Copy, Default)]
pub struct LayerPlan {
    pub above: usize,
    pub keys: usize,
    pub key_count: usize,
    pub intervals: usize,
    pub interval_count: usize,
}

// An atom's opening: of its table and of its second one, which is its maker's where it is laid over and else its own again; and whether it is opened in both
// at once, at the first column of an atom that is laid over.
#[derive(Clone, Copy, Default)]
pub struct AtomPlan {
    pub atom: usize,
    pub school: LayerPlan,
    pub maker: LayerPlan,
    pub both: bool,
}

// A depth: its variable, and the openings of the atoms that take part, in atom order, the first `count` of the array.
#[derive(Clone, Copy)]
pub struct DepthPlan {
    pub variable: usize,
    pub count: usize,
    pub openings: [AtomPlan; Query::MAX_ATOMS],
}

impl DepthPlan {
    // A depth at which no atom takes part. A function and no constant: a constant's parts would lie beside the plan on a join's stack.
    pub fn empty() -> DepthPlan
        ensures { result.count ≡ 0 }
    {
        DepthPlan {
            variable: 0,
            count: 0,
            openings: [AtomPlan::default(); Query::MAX_ATOMS],
        }
    }
}

// The depths of a query, the first n of the array. It is filled where it lies and never handed back: a function that hands it back had a join that goes on need
// 32,631 bytes of stack on Arm, where 20,480 are allowed (portable/test).
pub type Plan = [DepthPlan; Query::MAX_VARIABLES];

// Where the keys above a layer start; above the first, 0.
fn above_of(t: ColumnTrie, layer: usize) -> usize
    requires { Low t × (layer < max_arity) }
    ensures { result ≡ above_of t layer }
{
    if layer == 0 {
        return 0;
    }
    layer_at(t, layer - 1)
}

// The opening of a layer of a table.
fn plan_layer(t: ColumnTrie, layer: usize) -> LayerPlan
    requires { Low t × (layer < max_arity) }
    ensures { Opening result t layer }
{
    let keys = layer_at(t, layer);
    LayerPlan {
        above: above_of(t, layer),
        keys,
        key_count: t.data_len[layer],
        intervals: keys + t.capacity,
        interval_count: t.interval_len[layer],
    }
}

// Atom i's opening of a layer: of its table t and its second table m.
fn plan_atom(i: usize, laid: bool, t: ColumnTrie, m: ColumnTrie, layer: usize) -> AtomPlan
    requires { Low t × Low m × (layer < max_arity) }
    ensures { AtomOpening result i laid t m layer }
{
    AtomPlan {
        atom: i,
        school: plan_layer(t, layer),
        maker: plan_layer(m, layer),
        both: laid && layer == 0,
    }
}

// The number of an atom's second table: its maker's where it is laid over, else its own again.
fn second_of(a: Atom) -> usize
    ensures { result ≡ second_of a }
{
    if a.laid_over { a.maker } else { a.table }
}

// Plans one depth. Tables and query are no struct with `Plannable` in a ghost field: it would be made for two calls, `make_plan` and `make_ends`, of which each proves
// it in one line, and `Low` is of one table out of them. Both are lent, so that they are not copied for each depth; `whole` is said by a type, but not of an array of structs
// in a struct that is lent.
fn plan_depth(depth: &mut DepthPlan, ts: &Tables, q: &Query, d: usize)
    requires plannable { Plannable ts.now q.now × (d < q.now.n) }
    requires whole { length q.now.atoms ≡ max_atoms }
    ensures { DepthPlanned depth.new ts.now q.now d }
{
    let v = q.order[d];
    let mut k = 0;
    for i in 0..q.atom_count {
        let a = q.atoms[i];
        let list = &a.variables[..a.len];
        let layer = reached(&q.order[..d], list);
        if heads(list, layer, v) {
            let school = ts.tables[a.table];
            let maker = ts.tables[second_of(a)];
            depth.openings[k] = plan_atom(i, a.laid_over, school, maker, layer);
            k += 1;
        }
    }
    depth.variable = v;
    depth.count = k;
}

// Makes the plan.
pub fn make_plan(plan: &mut Plan, ts: Tables, q: Query)
    requires { Plannable ts q }
    ensures { Planned plan.new ts q }
{
    for d in 0..q.n {
        plan_depth(&mut plan[d], &ts, &q, d);
    }
}

// Where the first keys of a table end.
fn firsts_end(t: ColumnTrie) -> usize
    requires { Low t }
    ensures { result ≡ firsts_end t }
{
    layer_at(t, 0) + t.data_len[0]
}

// Writes, beside the plan, for each atom where the first keys of its table end, and those of its maker's.
pub fn make_ends(ends: &mut [usize; RUN_ENDS], ts: Tables, q: Query)
    requires plannable { Plannable ts q }
    requires ends_len { length ends.old ≡ 2 * max_atoms }
    ensures { FirstsEnded ends.new ts q q.atom_count }
{
    for i in 0..q.atom_count {
        let a = q.atoms[i];
        ends[2 * i] = firsts_end(ts.tables[a.table]);
        ends[2 * i + 1] = firsts_end(ts.tables[second_of(a)]);
    }
}
