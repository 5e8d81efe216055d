// Listings: behind the pool the header and the buffer's length; then the number, the text's length, and below that line the text.
use crate::choices::within;
use crate::headers::header;
use crate::lists::fill;
use cases::script::{Script, stands};
use column_trie_listing::list;

const BUFFER: usize = 4096;

// What a buffer holds before the call: no listing has it.
const MARK: u8 = 33;

// The text of so many bytes stands below the line, and behind it the buffer is as it was.
fn written(script: &mut Script, bytes: &[u8], len: usize) {
    let told = script.number() as usize;
    let excerpt = script.excerpt(told);
    let stays = bytes.iter().skip(told).all(|&byte| byte == MARK);
    script.compare(len == told);
    script.compare(stands(excerpt, bytes, told) && stays);
}

pub fn case(script: &mut Script, pool: &mut [u64], _words: &mut [u64]) {
    let pool = fill(script, pool);
    let table = header(script);
    let len = script.number();
    within(script, len, BUFFER as u64);
    let mut buffer = [MARK; BUFFER];
    let bytes = &mut buffer[..(len as usize).min(BUFFER)];
    let came = list(pool, table, bytes);
    script.said(came.number);
    written(script, bytes, came.len);
}
