// Lists a table as text: the port of `Display` of kermit-ds/src/ds/column_trie/implementation.rs of the Rust, layer by layer over crates/layer_text.
//
// The public call is `list`. Its answer and every byte of the buffer are those that specs/List.antt gives, for any pool, header and buffer: nothing
// is asked of them. The text is one definition, crates/layer_text/specs/Text.antt. What writes it tells where it ends, written or not, so its length is asked
// over no room at all before the first byte is written, and a refusal leaves the buffer as it was.
#![tactic(auto)]

ghost use Rattle.std.specs.Prelude.{◌+◌, ◌≤◌, ◌<◌, ◌^◌};
ghost use Rattle.column_trie.specs.Table.{layer_in, layers_in};
ghost use Rattle.layer_text.specs.Text.{layer_text, text};
ghost use Rattle.layer_text.specs.Piece.{PieceWritten};
ghost use Rattle.layer_text.specs.Wrote.{Wrote};
ghost use Rattle.column_trie_listing.specs.List.{Lists};

use column_trie::ColumnTrie;
use layer_text::Writer;
use refusal::Refusal;
use sound_table::{Intact, Sound, undamaged};

// Layer d of the table, read from the pool.
fn put_depth(writer: &mut Writer, table: &Sound, d: usize)
    requires { (d < table.now.table.now.arity) × (writer.old.end + 2 ^ 32 ≤ 2 ^ 63) }
    ensures { Wrote writer.old writer.new (layer_text d (layer_in table.now.pool.now table.now.table.now d)) × (writer.new.end ≤ writer.old.end + 2 ^ 32) }
{
    let lists = table.layer(d);
    writer.layer(d, lists.keys, lists.intervals);
}

// The whole text, at the front of the buffer.
fn put_text(bytes: &mut [u8], table: &Intact) -> usize
    ensures { PieceWritten bytes.old bytes.new 0 (text (layers_in table.now.sound.pool.now table.now.sound.table.now)) result }
{
    let mut writer = Writer {
        text: bytes,
        end: 0,
    };
    for d in 0..table.sound.table.arity {
        put_depth(&mut writer, &table.sound, d);
    }
    writer.end
}

// The refusal's number, 0 for none, and the text's length. C's struct, so a number stands where Rust has a Result.
#[repr(C)]
#[derive(Clone, Copy)]
pub struct Listed {
    pub number: u64,
    pub len: usize,
}

// Lists the table at the front of `buffer`. Refused, with nothing written: 6, a damaged table; 14, a text that is longer than the buffer.
pub fn list(pool: &[u64], table: ColumnTrie, buffer: &mut [u8]) -> Listed
    ensures { Lists pool.now table buffer.old buffer.new result }
{
    if !undamaged(pool, table) {
        return Listed {
            number: Refusal::Damaged.number(),
            len: 0,
        };
    }
    let intact = Intact {
        sound: Sound {
            pool,
            table: &table,
        },
    };
    let len = put_text(&mut buffer[..0], &intact);
    if buffer.len() < len {
        let number = Refusal::LongText.number();
        return Listed { number, len: 0 };
    }
    put_text(buffer, &intact);
    Listed { number: 0, len }
}
