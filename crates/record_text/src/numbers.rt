// The numbers of a record's body: SPEC, "Records".
ghost use Rattle.std.specs.Prelude.{◌≡◌, ◌+◌, ◌≤◌, pos, length, take};
ghost use Rattle.record_kinds.specs.Kinds.{body_length};
ghost use Rattle.record_forms.specs.Forms.{u, i, fields_of, number_at, numbers_at};
ghost use Rattle.record_text.specs.Fields.{Reads};

use record_forms::Field;
use record_kinds::Kind;

// The first `count`.
#[derive(Clone, Copy)]
pub(crate) struct Numbers {
    pub(crate) values: [i64; 8],
    pub(crate) count: usize,
}

pub(crate) fn of(kind: Kind, s: &[u8]) -> Numbers
    requires { body_length kind ≤ length s.now }
    ensures { (take result.count result.values ≡ numbers_at (fields_of kind) s.now 0) × (result.count ≤ 8) × (length result.values ≡ 8) }
{
    let form = record_forms::form_of(kind);
    let mut values = [0i64; 8];
    let mut at = 0;
    for (i, f) in form.iter().enumerate() {
        values[i] = number(*f, s, at);
        at += f.size;
    }
    Numbers {
        values,
        count: form.len(),
    }
}

// The number of a field that begins at a place.
fn number(f: Field, s: &[u8], k: usize) -> i64
    requires { Reads f × (k + f.size ≤ length s.now) }
    ensures { result ≡ number_at f s.now k }
{
    match (f.signed, f.size) {
        (false, 1) => i64::from(s[k]),
        (false, 2) => i64::from(record_fields::u16_at(s, k)),
        (false, _) => i64::from(record_fields::u32_at(s, k)),
        (true, 2) => i64::from(record_fields::i16_at(s, k)),
        (true, _) => i64::from(record_fields::i32_at(s, k)),
    }
}
