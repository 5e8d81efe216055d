// Grades: a grade and its word, asked both ways. A - directly before the digits makes a grade negative.
use cases::script::Script;
use grade::{grade_of, word_of};

// The grade of this size, above 0 or below; `None` where there is none.
fn grade(size: u64, negative: bool) -> Option<i64> {
    if !negative {
        return i64::try_from(size).ok();
    }
    let below = i64::try_from(size.checked_sub(1)?).ok()?;
    Some(-1 - below)
}

// The text's next grade.
fn next_grade(script: &mut Script) -> i64 {
    let negative = script.before_number() == Some(b'-');
    let size = script.number();
    let Some(grade) = grade(size, negative) else {
        script.lose();
        return 0;
    };
    grade
}

pub fn case(script: &mut Script, _pool: &mut [u64], _words: &mut [u64]) {
    let grade = next_grade(script);
    let word = script.number();
    script.compare(word_of(grade) == word);
    script.compare(grade_of(word) == grade);
}
