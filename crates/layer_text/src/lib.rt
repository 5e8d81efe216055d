// Internal: every function here but the one that counts digits asks something of its caller by a `requires`. The text of one layer, byte by byte: a part of the port of `Display` of
// kermit-ds/src/ds/column_trie/implementation.rs of the Rust.
//
// The text is one definition, specs/Text.antt. Each method of a `Writer` writes its piece where there is room for it, and moves on to where it ends, written or
// not: over no room at all the writer's end tells the text's length. Numbers and bytes are written by functions over the bytes themselves and a place, which a writer calls: with
// a place that is stored behind a `&mut self` for each digit and comma, a listing of short numbers took a quarter more instructions.
#![tactic(auto)]

ghost use Rattle.std.specs.Prelude.{◌≡◌, ◌++◌, ◌+◌, ◌*◌, ◌≤◌, ◌^◌, length};
ghost use Rattle.column_trie.specs.Pool.{lay};
ghost use Rattle.layer_text.specs.Text.{decimal, others, numbers, closing, layer_word, data_word, lists, layer_text};
ghost use Rattle.layer_text.specs.Piece.{PieceWritten};
ghost use Rattle.layer_text.specs.Wrote.{Wrote};

// Bytes that are written one piece behind another, and where the next piece goes.
#[derive(Drop)]
pub struct Writer<'a> {
    pub text: &'a mut [u8],
    pub end: usize,
}

// How many digits a number has.
fn digits(n: u64) -> usize
    ensures { (result ≡ length (decimal n)) × (result ≤ 20) }
{
    if n < 10 {
        return 1;
    }
    digits(n / 10) + 1
}

// Writes a number's digits from `at` on, where there is room for them; answers where they end. By hand: for the library's `Display` the writer had to be a `fmt::Write`, whose
// calls answer with an error that this one never has, and would be handed on by each method below.
fn write_number(text: &mut [u8], at: usize, n: u64) -> usize
    requires { at + length (decimal n) ≤ length text.old }
    ensures { (result ≡ at + length (decimal n)) × (text.new ≡ lay text.old at (decimal n)) }
{
    if n < 10 {
        text[at] = (48 + n) as u8;
        return at + 1;
    }
    let end = write_number(text, at, n / 10);
    text[end] = (48 + n % 10) as u8;
    end + 1
}

// A number's digits, written or not; answers where they end. They are counted only where the longest number wouldn't fit.
fn put_number(text: &mut [u8], at: usize, n: u64) -> usize
    requires { at + 20 ≤ 2 ^ 63 }
    ensures { PieceWritten text.old text.new at (decimal n) result × (result ≤ at + 20) }
{
    if text.len() < at + 20 {
        let end = at + digits(n);
        if text.len() < end {
            return end;
        }
    }
    write_number(text, at, n)
}

// Bytes, written or not; answers where they end.
fn put(text: &mut [u8], at: usize, bytes: &[u8]) -> usize
    requires { at + length bytes.now ≤ 2 ^ 63 }
    ensures { PieceWritten text.old text.new at bytes.now result }
{
    let end = at + bytes.len();
    if text.len() < end {
        return end;
    }
    text[at..end].copy_from_slice(bytes);
    end
}

impl Writer<'_> {
    // A number's digits.
    fn number(&mut self, n: u64)
        requires { self.old.end + 20 ≤ 2 ^ 63 }
        ensures { Wrote self.old self.new (decimal n) × (self.new.end ≤ self.old.end + 20) }
    {
        self.end = put_number(self.text, self.end, n);
    }

    // Bytes.
    fn put(&mut self, bytes: &[u8])
        requires { self.old.end + length bytes.now ≤ 2 ^ 63 }
        ensures { Wrote self.old self.new bytes.now }
    {
        self.end = put(self.text, self.end, bytes);
    }

    // The numbers behind a list's first, each behind a comma.
    fn others(&mut self, words: &[u64])
        requires { self.old.end + 22 * length words.now ≤ 2 ^ 63 }
        ensures { Wrote self.old self.new (others words.now) × (self.new.end ≤ self.old.end + 22 * length words.now) }
    {
        let mut end = self.end;
        for &word in words {
            end = put(self.text, end, b", ");
            end = put_number(self.text, end, word);
        }
        self.end = end;
    }

    // A list's numbers and what closes it.
    fn list(&mut self, words: &[u64])
        requires { self.old.end + 22 * length words.now + 2 ≤ 2 ^ 63 }
        ensures { Wrote self.old self.new (numbers words.now ++ closing) × (self.new.end ≤ self.old.end + 22 * length words.now + 2) }
    {
        if words.len() > 0 {
            self.number(words[0]);
            self.others(&words[1..]);
        }
        self.put(b"]\n");
    }

    // A layer's first line, and what opens its data.
    fn head(&mut self, d: usize)
        requires { self.old.end + 34 ≤ 2 ^ 63 }
        ensures { Wrote self.old self.new (layer_word ++ (decimal d ++ data_word)) × (self.new.end ≤ self.old.end + 34) }
    {
        self.put(b"LAYER ");
        self.number(d as u64);
        self.put(b"\nData: [");
    }

    // A layer's three lines.
    pub fn layer(&mut self, d: usize, data: &[u64], interval: &[u64])
        requires { (self.old.end + 2 ^ 32 ≤ 2 ^ 63) × (length «data».now ≤ 65536) × (length interval.now ≤ 65536) }
        ensures { Wrote self.old self.new (layer_text d (lists «data».now interval.now)) × (self.new.end ≤ self.old.end + 2 ^ 32) }
    {
        self.head(d);
        self.list(data);
        self.put(b"Interval: [");
        self.list(interval);
    }
}
