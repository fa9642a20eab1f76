// Where the word stands in an input of `qasm`.
ghost use Rattle.std.specs.Prelude.{◌≡◌, ◌≤◌, length};
ghost use Rattle.qasm_file.specs.File.{end_of, line_start, word_start, past_dash, place_of};

// The length without a line feed at the end.
pub(crate) fn end_of(s: &[u8]) -> usize
    ensures { (result ≡ end_of s.now) × (result ≤ length s.now) }
{
    let n = s.len();
    if n == 0 {
        return 0;
    }
    if s[n - 1] == b'\n' { n - 1 } else { n }
}

pub(crate) fn place_of(s: &[u8]) -> usize
    ensures { (result ≡ place_of s.now) × (result ≤ length s.now) }
{
    past_dash(s, word_start(s, line_start(s)))
}

// Where the last line begins.
fn line_start(s: &[u8]) -> usize
    ensures { (result ≡ line_start s.now (length s.now)) × (result ≤ length s.now) }
{
    for i in (0..s.len()).rev() {
        if s[i] == b'\n' {
            return i + 1;
        }
    }
    0
}

// Behind `word ` where it stands at a place, and else the beginning.
fn word_start(s: &[u8], at: usize) -> usize
    requires { at ≤ length s.now }
    ensures { (result ≡ word_start s.now at) × (result ≤ length s.now) }
{
    if s.len() - at < 5 {
        return 0;
    }
    let end = at + 5;
    if check::same(&s[at..end], b"word ") {
        end
    } else {
        0
    }
}

// Behind a `-` that stands alone from a place on.
fn past_dash(s: &[u8], at: usize) -> usize
    requires { at ≤ length s.now }
    ensures { (result ≡ past_dash s.now at) × (result ≤ length s.now) }
{
    if check::same(&s[at..], b"-") {
        at + 1
    } else {
        at
    }
}
