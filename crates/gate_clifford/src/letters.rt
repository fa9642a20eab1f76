// A word in an array, letter by letter.
ghost use Rattle.std.specs.Prelude.{◌≡◌, [], ◌∷◌, ◌++◌, ◌+◌, ◌<◌, ◌≤◌};
ghost use Rattle.gate_theory.specs.Table.{letter, unpack};
ghost use Rattle.gate_clifford.specs.Written.{written, byte, Adds};

// The letters of a word, the first `len` of the array: no heap, and `written` of the specs reads them so.
#[derive(Clone, Copy)]
pub struct Word {
    pub letters: [u8; 128],
    pub len: usize,
}

// The word without letters.
pub fn empty() -> Word
    ensures { (written result ≡ []) × (result.len ≡ 0) }
{
    Word {
        letters: [0; 128],
        len: 0,
    }
}

// One letter more.
pub fn push(w: Word, b: u8) -> Word
    requires { w.len < 128 }
    ensures { (written result ≡ written w ++ (b ∷ [])) × (result.len ≡ w.len + 1) }
{
    let mut a = w.letters;
    let n = w.len;
    a[n] = b;
    Word {
        letters: a,
        len: n + 1,
    }
}

fn letter_byte(d: u32) -> u8
    ensures { result ≡ byte (letter d) }
{
    if d == 1 {
        return b'H';
    }
    if d == 2 {
        return b'S';
    }
    b'W'
}

// The last n letters of the word of c, first letter highest.
pub(crate) fn unpack(w: Word, n: usize, c: u32) -> Word
    requires { w.len + n ≤ 128 }
    ensures { Adds w (unpack n c []) result }
{
    if n == 0 {
        return w;
    }
    if c == 0 {
        return w;
    }
    let v = unpack(w, n - 1, c / 4);
    push(v, letter_byte(c % 4))
}
