// The words of a line that spell bytes.
ghost use Rattle.std.specs.Prelude.{◌≡◌, length};
ghost use Rattle.text_words.specs.Bytes.{dash_of, dash_written, last_of, last_written, bytes_of, bytes_written, next_from};

// The bytes that a word spells, and where the next word begins.
#[derive(Clone, Copy)]
pub struct Spelled {
    pub hex: Option<usize>,
    pub next: usize,
}

// The bytes that the last word of a line spells, at the start of out. It begins at a place that has no space; where the line ends there, there are none.
pub fn last_bytes(line: &[u8], at: usize, out: &mut [u8]) -> Option<usize>
    ensures { (result ≡ last_of line.now at (length out.old)) × (out.new ≡ last_written line.now at out.old) }
{
    if line.len() <= at {
        return Some(0);
    }
    let end = text_scan::word_end(line, at);
    if text_scan::spaces_from(line, end) < line.len() {
        return None;
    }
    text_hex::unhex(&line[at..end], out)
}

// The bytes that the word at a place spells, at the start of out, and where the next word begins. A dash spells none; where the line ends there is no word.
pub fn bytes_at(line: &[u8], at: usize, out: &mut [u8]) -> Spelled
    ensures { (result.hex ≡ bytes_of line.now at (length out.old)) × (result.next ≡ next_from line.now at) × (out.new ≡ bytes_written line.now at out.old) }
{
    let end = text_scan::word_end(line, at);
    let next = text_scan::spaces_from(line, end);
    if line.len() <= at {
        return Spelled { hex: None, next };
    }
    let hex = dashed(&line[at..end], out);
    Spelled { hex, next }
}

fn dashed(word: &[u8], out: &mut [u8]) -> Option<usize>
    ensures { (result ≡ dash_of word.now (length out.old)) × (out.new ≡ dash_written word.now out.old) }
{
    if check::same(word, b"-") {
        return Some(0);
    }
    text_hex::unhex(word, out)
}
