// The strategy that a number from C stands for. A function and no `From<u64>`, which would have to stand in the crate seek: numbers for strategies are the affair of C and of texts of cases.
#![tactic(auto)]

ghost use Rattle.std.specs.Prelude.{◌≡◌};
ghost use Rattle.strategy_word.specs.Strategy.{strategy_of};

use seek::SeekStrategy;

pub fn strategy_of(word: u64) -> SeekStrategy
    ensures { result ≡ strategy_of word }
{
    match word {
        0 => SeekStrategy::Linear,
        1 => SeekStrategy::Binary,
        _ => SeekStrategy::Galloping,
    }
}
