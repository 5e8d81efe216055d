// A text of cases on the way through it: its decimal numbers one by one, whatever stands between them, and how often the library's answer was another one than the text
// says. A title, from # to the line's end, has no number.
use std::io;

#[derive(Clone, Copy)]
pub struct Script<'a> {
    text: &'a [u8],
    // How far it was read. `None` once something wasn't there, or was what no case has: from then on there is nothing, and each loop over what a text counts stops at it, so that
    // a count goes no further than the text does.
    at: Option<usize>,
    compared: u64,
    wrong: u64,
}

impl<'a> Script<'a> {
    pub fn new(text: &'a [u8]) -> Self {
        Self {
            text,
            at: Some(0),
            compared: 0,
            wrong: 0,
        }
    }

    // ---- what is read

    // The place of the first digit from `from` on that isn't in a title.
    fn digit_behind(&self, from: usize) -> Option<usize> {
        let mut title = false;
        for at in from..self.text.len() {
            let byte = self.text[at];
            title = byte == b'#' || title && byte != b'\n';
            if !title && byte.is_ascii_digit() {
                return Some(at);
            }
        }
        None
    }

    // The number whose digits start at `from`, and the place behind it; `None` where no word is so great.
    fn word_at(&self, from: usize) -> Option<(u64, usize)> {
        let mut word = 0u64;
        for at in from..self.text.len() {
            let byte = self.text[at];
            if !byte.is_ascii_digit() {
                return Some((word, at));
            }
            word = word.checked_mul(10)?.checked_add(u64::from(byte - b'0'))?;
        }
        Some((word, self.text.len()))
    }

    // The byte before the next number.
    pub fn before_number(&self) -> Option<u8> {
        let digit = self.digit_behind(self.at?)?;
        self.text.get(digit.checked_sub(1)?).copied()
    }

    // The next number; 0 where there is none.
    pub fn number(&mut self) -> u64 {
        let Some((word, behind)) = self.next_number() else {
            self.lose();
            return 0;
        };
        self.at = Some(behind);
        word
    }

    fn next_number(&self) -> Option<(u64, usize)> {
        self.word_at(self.digit_behind(self.at?)?)
    }

    // The next n numbers, into the first n words.
    pub fn numbers(&mut self, words: &mut [u64], n: usize) {
        let Some(words) = words.get_mut(..n) else {
            self.lose();
            return;
        };
        for word in words.iter_mut() {
            *word = self.number();
        }
    }

    // So many bytes below the line that was read to its last number.
    pub fn excerpt(&mut self, len: usize) -> Option<&'a [u8]> {
        let Some((excerpt, behind)) = self.next_excerpt(len) else {
            self.lose();
            return None;
        };
        self.at = Some(behind);
        Some(excerpt)
    }

    fn next_excerpt(&self, len: usize) -> Option<(&'a [u8], usize)> {
        let below = self.at?.checked_add(1)?;
        let behind = below.checked_add(len)?;
        Some((self.text.get(below..behind)?, behind))
    }

    // What was read is none of a case.
    pub fn lose(&mut self) {
        self.at = None;
    }

    pub fn is_lost(&self) -> bool {
        self.at.is_none()
    }

    // On from where the other one is, with what was compared.
    pub fn back_to(&mut self, other: &Script<'a>) {
        self.at = other.at;
    }

    // ---- what is compared

    pub fn compare(&mut self, same: bool) {
        self.compared = self.compared.wrapping_add(1);
        if !same {
            self.wrong = self.wrong.wrapping_add(1);
        }
    }

    // The next number is this word.
    pub fn said(&mut self, word: u64) {
        let said = self.number();
        self.compare(said == word);
    }

    // A call that answers yes or no was not refused, and its answer is the word told for it.
    pub fn told(&mut self, refusal: u64, yes: bool, word: u64) {
        self.compare(is_told(refusal, yes, word));
    }

    pub fn wrong(&self) -> u64 {
        self.wrong
    }

    // ---- what is printed

    // All cases are read: a text that isn't as it must be, or that holds more than its cases, is wrong.
    // `NAME: 12 cases, 36 compared, 0 wrong`
    pub fn print(mut self, rt: &impl Print, name: &str, cases: u64) -> io::Result<()> {
        let has_ended = self.at.is_some_and(|at| self.digit_behind(at).is_none());
        if !has_ended {
            self.compare(false);
        }
        let Self {
            compared,
            wrong,
            ..
        } = self;
        println!(rt; "{name}: {cases} cases, {compared} compared, {wrong} wrong")
    }
}

// Whether a call that answers yes or no was not refused, and its answer is the word told for it.
pub fn is_told(refusal: u64, yes: bool, word: u64) -> bool {
    refusal == 0 && word == u64::from(yes)
}

// Whether the first n bytes are the excerpt. Of no bytes there is always one.
pub fn stands(excerpt: Option<&[u8]>, bytes: &[u8], n: usize) -> bool {
    match (excerpt, bytes.get(..n)) {
        (Some(excerpt), Some(bytes)) => excerpt == bytes,
        _ => n == 0,
    }
}
