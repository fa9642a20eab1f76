// Records as the lines of words that say them: SPEC, "Jobs in words".
#![tactic(auto)]

ghost use Rattle.std.specs.Prelude.{◌≡◌, ◌*◌, ◌≤◌, length};
ghost use Rattle.record_kinds.specs.Kinds.{body_length};
ghost use Rattle.record_forms.specs.Forms.{fields_of, numbers_at};
ghost use Rattle.text_puts.specs.Puts.{Slate, Puts, puts};
ghost use Rattle.record_text.specs.Texts.{numbers_texts, selection_texts, rest_texts, name_texts, line_texts};
ghost use Rattle.record_text.specs.Records.{is_whole, shown_texts};

mod numbers;

use record_kinds::Kind;

// A line for each of the whole records that stand at the front of the bytes.
pub fn put(out: &mut [u8], bytes: &[u8]) -> usize
    ensures { Puts (out.old, 0) (shown_texts bytes.now) (out.new, result) (7 * length bytes.now) }
{
    let mut at = 0;
    let mut end = 0;
    // A while: the step is not one, it is past the record.
    while at < bytes.len() {
        let kind = record_kinds::kind_of(bytes[at]);
        at += 1;
        if !is_whole(kind, bytes.len() - at) {
            return end;
        }
        end = put_line(out, end, kind, &bytes[at..]);
        at += record_kinds::body_length(kind);
    }
    end
}

// Whether a record of a kind is whole with so many bytes behind the kind.
fn is_whole(kind: Kind, left: usize) -> bool
    ensures { result ≡ is_whole kind left }
{
    record_kinds::is_known(kind) && record_kinds::body_length(kind) <= left
}

// The line of a record, whose body is all there.
fn put_line(out: &mut [u8], at: usize, kind: Kind, s: &[u8]) -> usize
    requires { body_length kind ≤ length s.now }
    ensures { ◌≡◌ {A = Slate} (out.new, result) (puts (out.old, at) (line_texts kind (numbers_at (fields_of kind) s.now 0))) }
{
    let n = numbers::of(kind, s);
    let values = n.values;
    let count = n.count;
    let a = put_name(out, at, kind);
    let b = put_rest(out, a, kind, &values[..count]);
    text::put_byte(out, b, b'\n')
}

fn put_name(out: &mut [u8], at: usize, kind: Kind) -> usize
    ensures { ◌≡◌ {A = Slate} (out.new, result) (puts (out.old, at) (name_texts kind)) }
{
    match kind {
        Kind::Scale => text::put_bytes(out, at, b"scale"),
        Kind::Rectangle => text::put_bytes(out, at, b"rectangle"),
        Kind::Ellipse => text::put_bytes(out, at, b"ellipse"),
        Kind::Operator => text::put_bytes(out, at, b"operator"),
        Kind::Slice => text::put_bytes(out, at, b"slice"),
        Kind::Selection => text::put_bytes(out, at, b"selection"),
        Kind::Unknown => at,
    }
}

// A selection by its word, every other record by its numbers.
fn put_rest(out: &mut [u8], at: usize, kind: Kind, numbers: &[i64]) -> usize
    ensures { ◌≡◌ {A = Slate} (out.new, result) (puts (out.old, at) (rest_texts kind numbers.now)) }
{
    match kind {
        Kind::Selection => put_selection(out, at, numbers),
        Kind::Unknown => at,
        _ => put_numbers(out, at, numbers),
    }
}

fn put_selection(out: &mut [u8], at: usize, numbers: &[i64]) -> usize
    ensures { ◌≡◌ {A = Slate} (out.new, result) (puts (out.old, at) (selection_texts numbers.now)) }
{
    // No pattern [0]: of such a pattern a proof knows the length alone.
    if numbers.len() != 1 {
        return put_numbers(out, at, numbers);
    }
    match numbers[0] {
        0 => text::put_bytes(out, at, b" new"),
        1 => text::put_bytes(out, at, b" all"),
        _ => put_numbers(out, at, numbers),
    }
}

// A space and a number, for each number.
fn put_numbers(out: &mut [u8], at: usize, numbers: &[i64]) -> usize
    ensures { ◌≡◌ {A = Slate} (out.new, result) (puts (out.old, at) (numbers_texts numbers.now)) }
{
    let mut a = at;
    for z in numbers {
        a = text::put_byte(out, a, b' ');
        a = text::put_signed(out, a, *z);
    }
    a
}
