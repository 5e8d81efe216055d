// Reads a table file: leaves in the pool the table that the bytes are. No port: it is written from requests 1 and 8 of document 02.
//
// The public call is `read`. Its answer and every word of the pool are those that specs/Read.antt gives, for any arguments: nothing is asked of them.
// The bytes are checked whole before the first word is written; then each row is appended as build appends its sorted rows (crate from_sorted), since the rows
// of a file ascend. So nothing is sorted, and no other buffer is needed.
#![tactic(auto)]

ghost use Rattle.std.specs.Prelude.{◌≡◌, length, Some, IfOk};
ghost use Rattle.refusal.specs.Number.{given};
ghost use Rattle.from_sorted.specs.Answer.{kept_kinds};
ghost use Rattle.from_sorted.specs.Push.{Fills};
ghost use Rattle.table_file.specs.File.{kinds_read, parse};
ghost use Rattle.file_check.specs.Checks.{checked};
ghost use Rattle.file_read.specs.Load.{rows_found, Loading, HasKinds};
ghost use Rattle.file_read.specs.Read.{read_number, Reads};

use column_trie::{ColumnTrie, capacity_ok, lies_in};
use file_bytes::{Tag, read_row};
use file_check::{Checked, check, row_place};
use from_sorted::{Built, Lengths};
use refusal::Refusal;

// What file the bytes are, if a pool of `len` words has room for a table of it; else the first check that refuses.
fn readable(bytes: &[u8], len: usize, start: usize, capacity: usize) -> Result<Checked, Refusal>
    ensures number { given result ≡ read_number (parse bytes.now) len start capacity }
    ensures file { IfOk result (λ file. Some file ≡ checked (parse bytes.now)) }
{
    let Some(file) = check(bytes) else {
        return Err(Refusal::NotAFile);
    };
    if !capacity_ok(capacity) {
        return Err(Refusal::BadCapacity);
    }
    if !lies_in(len, start, file.arity, capacity) {
        return Err(Refusal::OutsidePool);
    }
    if capacity < file.rows {
        return Err(Refusal::NoRoom);
    }
    Ok(file)
}

// The kinds of a file's columns, as a header has them: those past the arity, and all where the file has none, are plain.
fn read_kinds(bytes: &[u8], arity: usize) -> [bool; ColumnTrie::MAX_ARITY]
    requires { HasKinds bytes.now arity }
    ensures { result ≡ kept_kinds arity (kinds_read arity bytes.now) }
{
    let mut grade: [bool; ColumnTrie::MAX_ARITY] = [false; ColumnTrie::MAX_ARITY];
    if bytes[4] != Tag::Kinds.byte() {
        return grade;
    }
    for d in 0..arity {
        grade[d] = bytes[7 + d] == 1;
    }
    grade
}

// Fills the empty table t with the rows of the file that the bytes are. The lengths are kept beside the header until the end, as in a build.
fn load(bytes: &[u8], file: Checked, pool: &mut [u64], t: ColumnTrie) -> ColumnTrie
    requires { Loading bytes.now file.body file.rows (length pool.old) t }
    ensures { Fills pool.old t (rows_found (parse bytes.now)) pool.new result }
{
    if file.rows == 0 {
        return t;
    }
    let arity = t.arity;
    let mut lengths = Lengths::of(t);
    let first = row_place(file.body, arity, 0);
    let mut last = read_row(&bytes[first..], arity);
    lengths.append_row(pool, t, &last, 0, 0);
    for i in 1..file.rows {
        let place = row_place(file.body, arity, i);
        let row = read_row(&bytes[place..], arity);
        lengths.append_next(pool, t, &last, &row);
        last = row;
    }
    lengths.filled(t)
}

// Leaves at `start` of the pool the table that the bytes are, with the capacity given.
pub fn read(bytes: &[u8], pool: &mut [u64], start: usize, capacity: usize) -> Built
    ensures { Reads bytes.now pool.old start capacity pool.new result }
{
    let file = match readable(bytes, pool.len(), start, capacity) {
        Ok(file) => file,
        Err(refused) => return Built::refused(refused),
    };
    let mut empty = ColumnTrie::empty(start, file.arity, capacity);
    empty.grade = read_kinds(bytes, file.arity);
    let table = load(bytes, file, pool, empty);
    Built { number: 0, table }
}
