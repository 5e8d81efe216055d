// Numbers and rows as bytes, words high byte first, read and written where they lie (internal). The rows' words of a table file are such numbers, and so is a field's length, behind its tag.
// And how many rows fill a field of such a file.
#![tactic(auto)]

ghost use Rattle.std.specs.Prelude.{◌≡◌, ◌+◌, ◌*◌, ◌≤◌, ◌<◌, length, take, drop};
ghost use Rattle.column_trie.specs.Limits.{max_arity};
ghost use Rattle.column_trie.specs.Pool.{lay};
ghost use Rattle.table_file.specs.Bytes.{bytes_of, number, decode};
ghost use Rattle.table_file.specs.File.{per_field};
ghost use Rattle.file_bytes.specs.Tags.{byte_of};

use column_trie::ColumnTrie;

// The kinds of a file's fields.
#[derive(Clone, Copy, PartialEq, Eq)]
pub enum Tag {
    Arity = 1,
    Rows = 2,
    End = 3,
    Kinds = 4,
}

impl Tag {
    // The byte that such a field begins with.
    pub fn byte(self) -> u8
        ensures { result ≡ byte_of self }
    {
        self as u8
    }
}

// The length that the first two bytes are.
pub fn read_len(bytes: &[u8]) -> usize
    requires { 2 ≤ length bytes.now }
    ensures { result ≡ number 2 bytes.now }
{
    usize::from(u16::from_be_bytes([bytes[0], bytes[1]]))
}

// The number that the n bytes at `at` are, high byte first. By hand: the library's `from_be_bytes` wants an array, and of a copy of eight bytes into one clang made a
// byte's load each, where it makes this loop one load.
pub fn read_number(bytes: &[u8], at: usize, n: usize) -> u64
    requires { (at + n ≤ length bytes.now) × (n ≤ 8) }
    ensures { result ≡ number n (drop at bytes.now) }
{
    let mut w: u64 = 0;
    for i in 0..n {
        w = w * 256 + u64::from(bytes[at + i]);
    }
    w
}

// The row of words at the front; words past the arity are 0.
pub fn read_row(bytes: &[u8], arity: usize) -> [u64; ColumnTrie::MAX_ARITY]
    requires { (arity ≤ max_arity) × (8 * arity ≤ length bytes.now) }
    ensures { take arity result ≡ decode arity bytes.now }
{
    let mut row: [u64; ColumnTrie::MAX_ARITY] = [0; ColumnTrie::MAX_ARITY];
    for k in 0..arity {
        row[k] = read_number(bytes, 8 * k, 8);
    }
    row
}

// Writes the word as eight bytes from `at` on, high byte first. What writes a file is lent the whole with a place, here and in file_rows and file_write: each contract says what is
// laid where in the whole, and a call with `&mut text[at..]` would be no shorter.
pub fn put_word(text: &mut [u8], at: usize, word: u64)
    requires { at + 8 ≤ length text.old }
    ensures { text.new ≡ lay text.old at (bytes_of 8 word) }
{
    text[at..at + 8].copy_from_slice(&word.to_be_bytes());
}

// How many rows fill a field.
pub fn per_field(arity: usize) -> usize
    requires { (0 < arity) × (arity ≤ 8) }
    ensures { (result ≡ per_field arity) × (0 < result) × (8 * (result * arity) ≤ 65535) }
{
    65535 / (8 * arity)
}
