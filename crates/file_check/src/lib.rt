// Whether bytes are a table file, as `parse` says (internal). For the reader, which asks it of the whole text before it writes a word.
#![tactic(auto)]

ghost use Rattle.std.specs.Prelude.{◌≡◌, ◌+◌, ◌*◌, ◌≤◌, ◌<◌, length, drop};
ghost use Rattle.relation.specs.Rows.{same};
ghost use Rattle.table_file.specs.Bytes.{Bytes};
ghost use Rattle.table_file.specs.File.{end, ascending, parse};
ghost use Rattle.table_file.specs.Places.{place};
ghost use Rattle.file_check.specs.Checks.{field_rows, counted, kinds_ok, head_len, given, rows_from, HasRows, checked};

use column_trie::arity_ok;
use file_bytes::{Tag, per_field, read_len, read_row};

// Whether the end of a file is all that is left.
fn ends(rest: &[u8]) -> bool
    ensures { result ≡ same rest.now end }
{
    rest[..] == [Tag::End.byte(), 0, 0]
}

// Whether the bytes are kinds, not all plain.
fn kinds_ok(kinds: &[u8]) -> bool
    ensures { result ≡ kinds_ok kinds.now }
{
    kinds.iter().all(|&kind| kind <= 1) && kinds.iter().any(|&kind| kind == 1)
}

// How long the head is, if the bytes have one: arity, and kinds if some column is a grade.
fn head_len(bytes: &[u8]) -> Option<usize>
    ensures { result ≡ head_len bytes.now }
{
    if bytes.len() < 4 || bytes[..3] != [Tag::Arity.byte(), 0, 1] {
        return None;
    }
    let arity = usize::from(bytes[3]);
    if !arity_ok(arity) {
        return None;
    }
    if bytes.len() < 5 || bytes[4] != Tag::Kinds.byte() {
        return Some(4);
    }
    if bytes.len() < 7 + arity || read_len(&bytes[5..]) != arity {
        return None;
    }
    if kinds_ok(&bytes[7..7 + arity]) {
        Some(7 + arity)
    } else {
        None
    }
}

// Where row i lies, with the rows' fields from `at` on.
pub fn row_place(at: usize, arity: usize, i: usize) -> usize
    requires { (0 < arity) × (arity ≤ 8) × (at + place arity i < 18446744073709551616) }
    ensures { result ≡ at + place arity i }
{
    let field = i / per_field(arity);
    at + (3 * (field + 1) + 8 * (i * arity))
}

// What lies behind the head: from `at` on fields of rows of that arity, if the bytes are a file.
#[derive(Clone, Copy)]
struct Body<'a> {
    bytes: &'a [u8],
    at: usize,
    arity: usize,
    ghost inside: { at ≤ length bytes.now },
    ghost some: { 0 < arity },
    ghost few: { arity ≤ 8 },
    // What a type says of its slice is not at hand where the slice is a field.
    ghost each: { Bytes bytes.now },
}

impl<'a> Body<'a> {
    // How many rows the field of rows at p holds, if one is there that a file may have.
    fn rows_at(&self, p: usize) -> Option<usize>
        requires { p ≤ length self.now.bytes.now }
        ensures { result ≡ field_rows self.now.arity (drop p self.now.bytes.now) }
    {
        let field = &self.bytes[p..];
        if field.len() < 3 || field[0] != Tag::Rows.byte() {
            return None;
        }
        let size = 8 * self.arity;
        let len = read_len(&field[1..]);
        if len == 0 || len % size != 0 || field.len() - 3 < len {
            return None;
        }
        let n = len / size;
        let full = n == per_field(self.arity);
        if full || ends(&field[3 + len..]) {
            Some(n)
        } else {
            None
        }
    }

    // How many rows the fields hold, if the bytes are fields of rows and then the end.
    fn count(&self) -> Option<usize>
        ensures { result ≡ counted (rows_from self.now.bytes.now self.now.at self.now.arity) }
    {
        let mut p = self.at;
        let mut n = 0;
        // No index is counted: it goes on, a field at a time, until the end is met.
        while !ends(&self.bytes[p..]) {
            let k = self.rows_at(p)?;
            p += 3 + 8 * (k * self.arity);
            n += k;
        }
        Some(n)
    }

    // Whether the n rows ascend. Each is read once: the last one is kept.
    fn ascends(&self, n: usize) -> bool
        requires { HasRows self.now.bytes.now self.now.at self.now.arity n }
        ensures { result ≡ ascending (given (rows_from self.now.bytes.now self.now.at self.now.arity)) }
    {
        if n == 0 {
            return true;
        }
        let arity = self.arity;
        let first = row_place(self.at, arity, 0);
        let mut last = read_row(&self.bytes[first..], arity);
        for i in 1..n {
            let place = row_place(self.at, arity, i);
            let row = read_row(&self.bytes[place..], arity);
            let rises = last[..arity] < row[..arity];
            if !rises {
                return false;
            }
            last = row;
        }
        true
    }
}

#[derive(Clone, Copy)]
pub struct Checked {
    pub arity: usize,
    pub body: usize,
    pub rows: usize,
}

// What file the bytes are, if they are one: its arity, where its fields of rows begin, and how many rows they hold.
pub fn check(bytes: &[u8]) -> Option<Checked>
    ensures { result ≡ checked (parse bytes.now) }
{
    let body = head_len(bytes)?;
    let arity = usize::from(bytes[3]);
    let fields = Body {
        bytes,
        at: body,
        arity,
    };
    let rows = fields.count()?;
    if fields.ascends(rows) {
        Some(Checked { arity, body, rows })
    } else {
        None
    }
}
