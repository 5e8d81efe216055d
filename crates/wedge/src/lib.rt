// A list that lies in the pool gains a word or loses one, for insert and removal, which lend its words. For one more, the words behind its place move one
// up, and where they are intervals each becomes one more: the Rust's `Vec::insert`, inside the list's own room. For one less they move down, and become
// one less; the word that is then past the list's end stays as it was.
#![tactic(auto)]

ghost use Rattle.std.specs.Prelude.{◌≡◌, ◌∷◌, ◌++◌, map, suc, ◌-◌, ◌<◌, length, take, drop};
ghost use Rattle.std.specs.List.{insert, remove};
ghost use Rattle.wedge.specs.Shift.{SmallFrom, PositiveFrom, lessened, listed};

// Puts `word` at place `at` of the list: the words from there on move one up, the last of them to the free word that is lent behind the list. They are cut
// out first: told where to begin, `copy_within` became a loop of the compiler's, and a shift of 50,000 words took half as long again. So in `close`.
pub fn wedge(words: &mut [u64], at: usize, word: u64)
    requires { at < length words.old }
    ensures { words.new ≡ insert (listed words.old) at word }
{
    let rest = &mut words[at..];
    let end = rest.len() - 1;
    rest.copy_within(..end, 1);
    rest[0] = word;
}

// Each word becomes one more.
pub fn raise(words: &mut [u64])
    requires { SmallFrom 0 (length words.old) words.old }
    ensures { words.new ≡ map suc words.old }
{
    for word in words.iter_mut() {
        *word += 1;
    }
}

// As `wedge`, and each word that moves becomes one more.
pub fn wedge_raised(words: &mut [u64], at: usize, word: u64)
    requires { (at < length words.old) × SmallFrom at (length words.old - 1) words.old }
    ensures { words.new ≡ take at (listed words.old) ++ word ∷ map suc (drop at (listed words.old)) }
{
    wedge(words, at, word);
    raise(&mut words[at + 1..]);
}

// Takes the word at place `at` out of the list: those behind it move one down, and the last one's old place stays as it was.
pub fn close(words: &mut [u64], at: usize)
    requires { at < length words.old }
    ensures { words.new ≡ remove words.old at ++ drop (length words.old - 1) words.old }
{
    words[at..].copy_within(1.., 0);
}

// Each word becomes one less. `raise` and this are a line each: one function with the step as a closure would put the closure's pre and post in the
// place of both readable contracts.
pub fn lower(words: &mut [u64])
    requires { PositiveFrom 0 (length words.old) words.old }
    ensures { words.new ≡ map lessened words.old }
{
    for word in words.iter_mut() {
        *word -= 1;
    }
}

// As `close`, and each word that moves becomes one less.
pub fn close_lowered(words: &mut [u64], at: usize)
    requires { (at < length words.old) × PositiveFrom (suc at) (length words.old) words.old }
    ensures { words.new ≡ (take at words.old ++ map lessened (drop (suc at) words.old)) ++ drop (length words.old - 1) words.old }
{
    close(words, at);
    let end = words.len() - 1;
    lower(&mut words[at..end]);
}
