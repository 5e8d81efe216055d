// A grade, a signed whole number of thousandths, as a word that a table can hold, and back. It is ours: the Rust has nothing like it.
//
// Both calls take every number of their type, each undoes the other, and a smaller grade has a smaller word: proofs/RoundTrips.antt and
// proofs/Order.antt have that. How a word is made stands in specs/Word.antt alone.
#![tactic(auto)]

ghost use Rattle.std.specs.Prelude.{◌≡◌};
ghost use Rattle.grade.specs.Word.{word_of, grade_of};

// The word of a grade: the grade plus 2^63. So words ascend as grades do.
pub fn word_of(grade: i64) -> u64
    ensures { result ≡ word_of grade }
{
    if grade >= 0 {
        9223372036854775808 + (grade as u64)
    } else {
        // -1 - grade is 0 .. 2^63 - 1, where -grade could be 2^63, which no i64 holds
        let m = -1 - grade;
        9223372036854775807 - (m as u64)
    }
}

// The grade of a word.
pub fn grade_of(word: u64) -> i64
    ensures { result ≡ grade_of word }
{
    if word < 9223372036854775808 {
        let m = 9223372036854775807 - word;
        -1 - (m as i64)
    } else {
        (word - 9223372036854775808) as i64
    }
}
