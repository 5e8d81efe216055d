// Seeks: behind the run the strategy and the target; then offset, probes and whether it is a hit.
use crate::choices::strategy;
use crate::lists::fill;
use cases::script::Script;
use seek::partition_point;

pub fn case(script: &mut Script, pool: &mut [u64], _words: &mut [u64]) {
    let run = fill(script, pool);
    let strategy = strategy(script);
    let target = script.number();
    let came = partition_point(strategy, run, target);
    script.said(came.offset as u64);
    script.said(came.probes as u64);
    script.said(u64::from(came.hit));
}
