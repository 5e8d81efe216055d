// Lists of words as a case writes them: how many there are, how many are given, and these. The words behind them go on by the step between the last two
// given; with one given they are all like it, with none all 0.
use crate::choices::within;
use cases::script::Script;

// A list on its way: its length, how many words are given, how many of them were read, the word reached, and the step to it.
#[derive(Clone, Copy)]
struct List {
    len: u64,
    given: u64,
    read: u64,
    word: u64,
    step: u64,
}

impl List {
    // The list that starts here. It gives no more words than it has.
    fn new(script: &mut Script) -> Self {
        let len = script.number();
        let given = script.number();
        within(script, given, len);
        Self {
            len,
            given,
            read: 0,
            word: 0,
            step: 0,
        }
    }

    // The next word.
    fn next(&mut self, script: &mut Script) -> u64 {
        if self.given <= self.read {
            self.word = self.word.wrapping_add(self.step);
            return self.word;
        }
        let word = script.number();
        self.step = if self.read == 0 {
            0
        } else {
            word.wrapping_sub(self.word)
        };
        self.read += 1;
        self.word = word;
        word
    }
}

// The list that starts here, as the first words.
pub fn fill<'a>(script: &mut Script, words: &'a mut [u64]) -> &'a mut [u64] {
    let mut list = List::new(script);
    let Some(words) = words.get_mut(..list.len as usize) else {
        script.lose();
        return &mut [];
    };
    for word in words.iter_mut() {
        *word = list.next(script);
    }
    words
}

// Lent words: the text's next list is theirs. One of no words asks nothing; one of another length is no list of them.
pub fn left(script: &mut Script, words: &[u64]) {
    let mut list = List::new(script);
    if list.len == 0 {
        return;
    }
    if list.len != words.len() as u64 {
        script.lose();
        return;
    }
    let mut same = true;
    for &word in words {
        let said = list.next(script);
        same = same && word == said;
    }
    script.compare(same);
}
