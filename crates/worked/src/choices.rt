// Single numbers: a strategy's, and those that must not be too great.
use cases::script::Script;
use seek::SeekStrategy;

// A number of which there is no room for more than `most`.
pub fn within(script: &mut Script, word: u64, most: u64) {
    if most < word {
        script.lose();
    }
}

// The next strategy: 0 linear, 1 binary, 2 galloping. Another number is none.
pub fn strategy(script: &mut Script) -> SeekStrategy {
    match script.number() {
        0 => SeekStrategy::Linear,
        1 => SeekStrategy::Binary,
        2 => SeekStrategy::Galloping,
        _ => {
            script.lose();
            SeekStrategy::Linear
        }
    }
}
