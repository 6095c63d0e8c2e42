//! What is done with the words of a set of slots.
ghost use Rattle.std.specs.Prelude.{◌≡◌, ◌<◌, ◌≤◌, ℕ, length, slice_index_or};
ghost use Rattle.jlr_sets.specs.Bits.{bits_of, IsTrimmedLen, word_absent, word_beyond};
ghost use Rattle.jlr_sets.specs.SlotSets.{FindsFirst, absent, beyond, slots_of};

/// The first slot at or above `from`.
pub(crate) fn first_from(words: &[u64], from: usize) -> Option<usize>
    requires { length words.now ≤ 67108864 }
    ensures { FindsFirst (bits_of words.now) from result }
{
    let start = from / 64;
    if start >= words.len() {
        return None;
    }
    let rest = words[start] >> (from % 64);
    if rest != 0 {
        return Some(from + rest.trailing_zeros() as usize);
    }
    let mut at = start + 1;
    while at < words.len() {
        let word = words[at];
        if word != 0 {
            return Some(at * 64 + word.trailing_zeros() as usize);
        }
        at += 1;
    }
    None
}

/// A word; 0 behind the last.
fn word_at(words: &[u64], at: usize) -> u64
    ensures { result ≡ slice_index_or words.now at 0 }
{
    if at < words.len() { words[at] } else { 0 }
}

/// What a word has and the word at the same place of others has not.
fn word_beyond(words: &[u64], others: &[u64], at: usize) -> u64
    requires { at < length words.now }
    ensures { result ≡ word_beyond words.now others.now at }
{
    words[at] & !word_at(others, at)
}

/// The first slot at or above `from` that is not in the others.
pub(crate) fn first_beyond_from(words: &[u64], others: &[u64], from: usize) -> Option<usize>
    requires { length words.now ≤ 67108864 }
    ensures { FindsFirst (beyond (bits_of words.now) (bits_of others.now)) from result }
{
    let start = from / 64;
    if start >= words.len() {
        return None;
    }
    let rest = word_beyond(words, others, start) >> (from % 64);
    if rest != 0 {
        return Some(from + rest.trailing_zeros() as usize);
    }
    let mut at = start + 1;
    while at < words.len() {
        let word = word_beyond(words, others, at);
        if word != 0 {
            return Some(at * 64 + word.trailing_zeros() as usize);
        }
        at += 1;
    }
    None
}

/// What a word has not.
fn word_absent(words: &[u64], at: usize) -> u64
    requires { at < length words.now }
    ensures { result ≡ word_absent words.now at }
{
    !words[at]
}

/// The first place at or above `from` that is not set.
pub(crate) fn first_absent_from(words: &[u64], from: usize) -> Option<usize>
    requires { length words.now ≤ 67108864 }
    ensures { FindsFirst (absent (bits_of words.now)) from result }
{
    let start = from / 64;
    if start >= words.len() {
        return None;
    }
    let rest = word_absent(words, start) >> (from % 64);
    if rest != 0 {
        return Some(from + rest.trailing_zeros() as usize);
    }
    let mut at = start + 1;
    while at < words.len() {
        let word = word_absent(words, at);
        if word != 0 {
            return Some(at * 64 + word.trailing_zeros() as usize);
        }
        at += 1;
    }
    None
}

/// Writes these words in place of the first ones, as many as there is room for.
pub(crate) fn overwrite(words: &mut [u64], first: &[u64])
    ensures first { (k : ℕ) → k < length first.now → k < length words.old
        → slice_index_or words.new k 0 ≡ slice_index_or first.now k 0 }
    ensures rest { (k : ℕ) → length first.now ≤ k → slice_index_or words.new k 0 ≡ slice_index_or words.old k 0 }
    ensures long { length words.new ≡ length words.old }
{
    let count = words.len().min(first.len());
    for at in 0..count {
        words[at] = first[at];
    }
}

/// How many slots there are.
pub(crate) fn count_of(words: &[u64]) -> usize
    requires { length words.now ≤ 67108864 }
    ensures { result ≡ length (slots_of (bits_of words.now)) }
{
    let mut count = 0;
    for word in words {
        count += word.count_ones() as usize;
    }
    count
}

/// How many words are left without the zeros at the end.
pub(crate) fn trimmed_len(words: &[u64]) -> usize
    ensures { IsTrimmedLen words.now result }
{
    let mut len = words.len();
    while len > 0 {
        if words[len - 1] != 0 {
            return len;
        }
        len -= 1;
    }
    0
}
