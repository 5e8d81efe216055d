// Headers as a case writes them: start, arity, capacity, eight lengths of data, eight of intervals, the count of tuples, and eight kinds.
use cases::script::Script;
use column_trie::ColumnTrie;

// The text's next eight numbers.
pub fn eight(script: &mut Script) -> [usize; ColumnTrie::MAX_ARITY] {
    let mut words = [0u64; ColumnTrie::MAX_ARITY];
    script.numbers(&mut words, ColumnTrie::MAX_ARITY);
    words.map(|word| word as usize)
}

// The kinds that the text's next eight numbers stand for: 1 is a grade.
pub fn kinds(script: &mut Script) -> [bool; ColumnTrie::MAX_ARITY] {
    eight(script).map(|word| word == 1)
}

// The text's next header.
pub fn header(script: &mut Script) -> ColumnTrie {
    ColumnTrie {
        start: script.number() as usize,
        arity: script.number() as usize,
        capacity: script.number() as usize,
        data_len: eight(script),
        interval_len: eight(script),
        tuple_count: script.number() as usize,
        grade: kinds(script),
    }
}

// The text's next numbers are these.
fn eight_said(script: &mut Script, eight: [usize; ColumnTrie::MAX_ARITY]) {
    for number in eight {
        script.said(number as u64);
    }
}

// The text's next header is this one.
pub fn headed(script: &mut Script, t: ColumnTrie) {
    script.said(t.start as u64);
    script.said(t.arity as u64);
    script.said(t.capacity as u64);
    eight_said(script, t.data_len);
    eight_said(script, t.interval_len);
    script.said(t.tuple_count as u64);
    eight_said(script, t.grade.map(|yes| usize::from(yes)));
}
