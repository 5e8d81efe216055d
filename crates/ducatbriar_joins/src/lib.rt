// The joins that list all rows at once, by leapfrogs and plainly, and the check of a listing, for C and for Rust to link.
// What goes for every exported call is said in crates/ducatbriar_tables.
#![tactic(auto)]

ghost use Rattle.leapfrog_triejoin.specs.Outcome.{Joins};
ghost use Rattle.plain_join.specs.Outcome.{PlainJoins};
ghost use Rattle.listing_verdict.specs.Checked.{Checks};

use join_query::{Query, Tables};
use leapfrog_triejoin::Joined;
use listing_verdict::Checked;
use plain_join::PlainJoined;
use strategy_word::strategy_of;

#[unsafe(no_mangle)]
pub extern "C" fn ducatbriar_join(
    strategy: u64,
    pool: &[u64],
    tables: Tables,
    query: Query,
    window: &mut [u64],
) -> Joined
    ensures { Joins pool.now tables query window.old result window.new }
{
    leapfrog_triejoin::join(strategy_of(strategy), pool, tables, query, window)
}

#[unsafe(no_mangle)]
pub extern "C" fn ducatbriar_plain_join(
    pool: &[u64],
    tables: Tables,
    query: Query,
    window: &mut [u64],
) -> PlainJoined
    ensures { PlainJoins pool.now tables query window.old result window.new }
{
    plain_join::plain_join(pool, tables, query, window)
}

#[unsafe(no_mangle)]
pub extern "C" fn ducatbriar_check_listing(
    pool: &[u64],
    tables: Tables,
    query: Query,
    listing: &[u64],
    count: usize,
) -> Checked
    ensures { Checks pool.now tables query listing.now count result }
{
    listing_check::check_listing(pool, tables, query, listing, count)
}
