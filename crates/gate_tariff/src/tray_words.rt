// The words of a tray, each closed by a line feed.
ghost use Rattle.std.specs.Prelude.{◌≡◌, ◌+◌, ◌≤◌, true, length, drop};
ghost use Rattle.gate_tariff.specs.Index.{index_of};
ghost use Rattle.gate_tariff.specs.Tariff.{in_range, Small};
ghost use Rattle.gate_tariff.specs.Tray.{words_of, is_tray, size_of, total_of};

use crate::price::word_ticks;
use crate::{Refusal, Tariff};

const TOP_WORDS: usize = 8;

// How many words are closed.
fn words_of(s: &[u8]) -> usize
    ensures { result ≡ length (words_of s.now) }
{
    let mut n = 0;
    for i in (0..s.len()).rev() {
        if s[i] == b'\n' {
            n += 1;
        }
    }
    n
}

// How many words a tray has: one to eight, the last closed. What is no tray has none.
#[tactic(auto, unfolding(crate::specs::Tray::is_tray))]
pub(crate) fn size(s: &[u8]) -> usize
    ensures { result ≡ size_of s.now }
{
    if s.len() == 0 {
        return 0;
    }
    if s[s.len() - 1] != b'\n' {
        return 0;
    }
    let n = words_of(s);
    if TOP_WORDS < n {
        return 0;
    }
    n
}

// The ticks of the n words of a tray, or the first refusal.
pub(crate) fn total(tariff: Tariff, s: &[u8], n: usize) -> Result<u64, Refusal>
    requires { (in_range tariff ≡ true) × (is_tray s.now ≡ true) × (n ≡ length (words_of s.now)) }
    ensures { (result ≡ total_of tariff (words_of s.now)) × Small result }
{
    let mut sum = 0;
    let mut at = 0;
    for _i in 0..n {
        let end = find(s, at, b'\n');
        match word_ticks(tariff, &s[at..end]) {
            Ok(k) => {
                sum += k;
                at = end + 1;
            }
            Err(why) => return Err(why),
        }
    }
    Ok(sum)
}

// The place of the first byte b from at on, or the length.
fn find(s: &[u8], at: usize, b: u8) -> usize
    requires { at ≤ length s.now }
    ensures { result ≡ at + index_of b (drop at s.now) }
{
    for i in at..s.len() {
        if s[i] == b {
            return i;
        }
    }
    s.len()
}
