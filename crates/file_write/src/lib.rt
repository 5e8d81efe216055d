// Writes a table as a table file: a head of arity and kinds, its fields of rows, and the end.
//
// The public call is `write`. Its answer and every byte are those that specs/Write.antt gives, for any pool, header and bytes: nothing is asked of
// them. What a file is stands in table_file's specs/File.antt. The length is computed from the header alone before the first byte is written, so that
// a refusal leaves the bytes as they were. One pass over the rows, no second buffer.
#![tactic(auto)]

ghost use Rattle.std.specs.Prelude.{◌≡◌, true, map, ◌+◌, ◌≤◌, ◌<◌, length, IfOk};
ghost use Rattle.refusal.specs.Number.{given};
ghost use Rattle.column_trie.specs.Limits.{max_arity, max_capacity};
ghost use Rattle.column_trie.specs.Pool.{lay};
ghost use Rattle.column_trie.specs.Table.{undamaged};
ghost use Rattle.table_file.specs.File.{kind_byte, graded};
ghost use Rattle.file_rows.specs.Rows.{Laid};
ghost use Rattle.file_write.specs.Write.{file_in, write_number, Writes};
ghost use Rattle.file_write.specs.Head.{kinds_head, file_len};

use column_trie::ColumnTrie;
use file_bytes::{Tag, per_field};
use file_rows::{put_fields, put_tag};
use refusal::Refusal;
use sound_table::{Intact, Sound, undamaged};

// Whether some column is a grade.
fn some_grade(kinds: &[bool]) -> bool
    ensures { result ≡ graded kinds.now }
{
    kinds.iter().any(|&grade| grade)
}

// Writes the kinds from `at` on, a byte a column.
fn put_kinds(bytes: &mut [u8], at: usize, kinds: &[bool])
    requires { at + length kinds.now ≤ length bytes.old }
    ensures { bytes.new ≡ lay bytes.old at (map kind_byte kinds.now) }
{
    for (d, &grade) in kinds.iter().enumerate() {
        bytes[at + d] = u8::from(grade);
    }
}

// How long the head of a table with these kinds is.
fn head_len(kinds: &[bool]) -> usize
    ensures { result ≡ length (kinds_head kinds.now) }
{
    if some_grade(kinds) {
        7 + kinds.len()
    } else {
        4
    }
}

// Writes that head at the front, the kinds only if some column is a grade; answers where it ends.
fn put_head(bytes: &mut [u8], kinds: &[bool]) -> usize
    requires { (length kinds.now ≤ max_arity) × (length (kinds_head kinds.now) ≤ length bytes.old) }
    ensures { Laid bytes.old 0 (kinds_head kinds.now) bytes.new result }
{
    put_tag(bytes, 0, Tag::Arity.byte(), 1);
    bytes[3] = kinds.len() as u8;
    if !some_grade(kinds) {
        return 4;
    }
    put_tag(bytes, 4, Tag::Kinds.byte(), kinds.len());
    put_kinds(bytes, 7, kinds);
    7 + kinds.len()
}

// How long the table's file is, by its header.
fn file_len(t: ColumnTrie) -> usize
    requires { (0 < t.arity) × (t.arity ≤ max_arity) × (t.tuple_count ≤ max_capacity) }
    ensures { result ≡ file_len t }
{
    let kinds = &t.grade[..t.arity];
    let head = head_len(kinds);
    let full = per_field(t.arity);
    let fields = t.tuple_count.div_ceil(full);
    head + (3 * fields + 8 * (t.tuple_count * t.arity)) + 3
}

// Writes the file at the front.
fn put_file(bytes: &mut [u8], pool: &[u64], t: ColumnTrie)
    requires { (undamaged pool.now t ≡ true) × (length (file_in pool.now t) ≤ length bytes.old) }
    ensures { bytes.new ≡ lay bytes.old 0 (file_in pool.now t) }
{
    let kinds = &t.grade[..t.arity];
    let body = put_head(bytes, kinds);
    let rows = Intact {
        sound: Sound { pool, table: &t },
    };
    let end = put_fields(bytes, body, &rows);
    put_tag(bytes, end, Tag::End.byte(), 0);
}

// The refusal's number, 0 for none, and the file's length. C's struct, so a number stands where Rust has a Result.
#[repr(C)]
#[derive(Clone, Copy)]
pub struct FileWritten {
    pub number: u64,
    pub len: usize,
}

// How long the table's file is, if `room` bytes have room for it; else the first check that refuses.
fn writable(pool: &[u64], table: ColumnTrie, room: usize) -> Result<usize, Refusal>
    ensures number { given result ≡ write_number pool.now table room }
    ensures len { IfOk result (λ len. (undamaged pool.now table ≡ true) × (len ≡ length (file_in pool.now table)) × (len ≤ room)) }
{
    if !undamaged(pool, table) {
        return Err(Refusal::Damaged);
    }
    let len = file_len(table);
    if room < len {
        return Err(Refusal::LongText);
    }
    Ok(len)
}

// Writes the table's file at the front of `bytes`. Refused, with nothing written: 6, a damaged table; 14, a file that is longer than the bytes.
pub fn write(pool: &[u64], table: ColumnTrie, bytes: &mut [u8]) -> FileWritten
    ensures { Writes pool.now table bytes.old bytes.new result }
{
    match writable(pool, table, bytes.len()) {
        Ok(len) => {
            put_file(bytes, pool, table);
            FileWritten { number: 0, len }
        }
        Err(refused) => FileWritten {
            number: refused.number(),
            len: 0,
        },
    }
}
