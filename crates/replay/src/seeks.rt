// Recorded seeks: a run, and for each target the offset, the probes of the linear strategy, and whether it is a hit; offset and hit are the same under every
// strategy.
use cases::script::Script;
use seek::{SeekStrategy, partition_point};

const RUN: usize = 1024;

// The answers for one target.
fn target(script: &mut Script, run: &[u64]) {
    let target = script.number();
    let offset = script.number();
    let probes = script.number();
    let hit = script.number();
    let linear = partition_point(SeekStrategy::Linear, run, target);
    script.compare(linear.offset as u64 == offset);
    script.compare(linear.probes as u64 == probes);
    script.told(0, linear.hit, hit);
    for strategy in [SeekStrategy::Binary, SeekStrategy::Galloping] {
        let sought = partition_point(strategy, run, target);
        script.compare(sought.offset as u64 == offset);
        script.told(0, sought.hit, hit);
    }
}

// A run, and so many targets, as far as the text goes.
pub fn case(script: &mut Script) {
    let mut words = [0u64; RUN];
    let len = script.number() as usize;
    script.numbers(&mut words, len);
    let run = words.get(..len).unwrap_or(&words);
    let count = script.number();
    for _ in 0..count {
        if script.is_lost() {
            return;
        }
        target(script, run);
    }
}
