// The rows of a message table (specs/Rows.antt), each read as one number of 4 bytes (specs/RowWords.antt).
ghost use Rattle.std.specs.Prelude.{◌≡◌, ℕ, get_or};
ghost use Rattle.sets.specs.Any.{all};
ghost use Rattle.lists.specs.Tab.{tab};
ghost use Rattle.network.specs.RowWords.{row_word, word_right, bad_word, words_table};
ghost use Rattle.network.specs.Tests.{Found};

use crate::Table;
use endian::Little;

// The number of each row.
#[tactic(auto, using(crate::proofs::Steps::filling), unfolding(crate::specs::RowWords::row_word))]
pub(crate) fn words(table: &[u8; 256]) -> [u32; 64]
    ensures { result ≡ tab 64 (row_word table.now) }
{
    let mut x = [0u32; 64];
    for (r, w) in x.iter_mut().enumerate() {
        *w = u32::read(table, 4 * r);
    }
    x
}

// A row with this number has a topic, an origin and two zero bytes.
#[tactic(auto, unfolding(crate::specs::RowWords::word_right))]
fn right(w: u32) -> bool
    ensures { result ≡ word_right w }
{
    if 8192 <= w {
        return false;
    }
    w % 256 < 32
}

// All rows are right. Every row is asked, so that the compiler can ask many at once.
#[tactic(auto, using(crate::proofs::Steps::asking))]
fn all_right(words: &[u32; 64]) -> bool
    ensures { result ≡ all 64 (λ (r : ℕ). word_right (get_or words.now r 0)) }
{
    let mut ok = true;
    for w in words {
        if !right(*w) {
            ok = false;
        }
    }
    ok
}

// The lowest row that is not right.
#[tactic(auto, using(crate::proofs::Steps::looking), unfolding(crate::specs::RowWords::bad_word))]
pub(crate) fn bad(words: &[u32; 64]) -> Option<usize>
    ensures { Found 64 result (bad_word words.now) }
{
    if all_right(words) {
        return None;
    }
    for (r, w) in words.iter().enumerate() {
        if !right(*w) {
            return Some(r);
        }
    }
    None
}

// The topics and the origins.
#[tactic(auto, using(crate::proofs::Steps::filling), unfolding(crate::specs::RowWords::words_table))]
pub(crate) fn columns(words: &[u32; 64]) -> Table
    ensures { result ≡ words_table words.now }
{
    let mut topics = [0u8; 64];
    let mut origins = [0u8; 64];
    for r in 0..64 {
        topics[r] = (words[r] % 256) as u8;
        origins[r] = (words[r] / 256 % 256) as u8;
    }
    Table { topics, origins }
}
