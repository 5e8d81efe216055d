// A file of cases, read whole.
ghost use Rattle.std.specs.Prelude.{◌≡◌, length, IfOk};
ghost use Rattle.cases.specs.Counts.{IsPrefixLen};

use std::io::Read;
use std::rt::Files;
use std::{fs, io};

const TEXT: usize = 262144;

// The `ensures` gives only the length, which lending the array as a slice needs.
pub fn room() -> [u8; TEXT]
    ensures { 262144 ≡ length result }
{
    [0; TEXT]
}

// Reads until the text is full or the file ends: how many bytes it put at the start of the text. A `while`, since it counts no index: each turn goes on by what was read.
fn read_full(file: &mut impl Read, text: &mut [u8]) -> io::Result<usize>
    ensures { IfOk result (λ n. IsPrefixLen n text.new) }
{
    let mut done = 0;
    while done < text.len() {
        let n = file.read(&mut text[done..])?;
        if n == 0 {
            break;
        }
        done += n;
    }
    Ok(done)
}

// The file of this name, as far as there is room in the text. What there is no room for is missed, and so is wrong. One that can't be opened is named, with the reason.
pub fn load<'a, R: Files + Eprint>(
    rt: &R,
    name: &str,
    text: &'a mut [u8],
) -> io::Result<Option<&'a [u8]>> {
    match fs::open(rt, name) {
        Ok(mut file) => {
            let len = read_full(&mut file, text)?;
            Ok(Some(&text[..len]))
        }
        Err(error) => {
            eprintln!(rt; "{name}: {error}")?;
            Ok(None)
        }
    }
}
