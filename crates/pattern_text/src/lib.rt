// The lines of the pattern program: the shortest pattern of the job that an input says, or why there is none.
#![tactic(auto)]

ghost use Rattle.std.specs.Prelude.{◌≡◌, ◌+◌, [], ◌∷◌, length};
ghost use Rattle.session_stages.specs.Session.{meaning};
ghost use Rattle.list_input.specs.Load.{load_of};
ghost use Rattle.text_puts.specs.Puts.{Puts};
ghost use Rattle.pattern_text.specs.Pattern.{coordinate_texts, point_texts, name_text, word_texts, pattern_texts, shortest_texts, texts_for};

use gate_words::Part;
use list_input::Input;
use ring::Point;
use session::{Answer, Session};

// All that the program prints for an input.
pub fn put(out: &mut [u8], bytes: &[u8]) -> usize
    ensures { Puts (out.old, 0) (texts_for (length bytes.now) (load_of bytes.now)) (out.new, result) 363 }
{
    let i = list_input::load(bytes);
    match i {
        Input::TooLong => list_lines::put_too_long(out, 0),
        Input::Refused(f, at) => list_lines::put_refusal(out, 0, f, at),
        Input::Job(s) => put_shortest(out, s, bytes.len()),
    }
}

// The pattern, or `refused 14 at N` with the input's length.
fn put_shortest(out: &mut [u8], s: Session, length: usize) -> usize
    ensures { Puts (out.old, 0) (shortest_texts length (meaning s)) (out.new, result) 363 }
{
    let a = session::shortest(s);
    match a {
        Answer::Least(k, u, t) => put_pattern(out, k, u, t),
        Answer::Refused(f) => list_lines::put_refusal(out, 0, f, length),
        Answer::Taken(_) => 0,
        Answer::Handed(_, _) => 0,
        Answer::Done => 0,
        Answer::Says(_) => 0,
    }
}

fn put_pattern(out: &mut [u8], k: u8, u: Point, t: Point) -> usize
    ensures { Puts (out.old, 0) (pattern_texts k u t) (out.new, result) 363 }
{
    let m = ring::pulse_count(u.exponent(k));
    let a = text_puts::put_number(out, 0, b"scale", k as u64);
    let b = put_point(out, a, b"u", u);
    let c = put_point(out, b, b"t", t);
    let d = text_puts::put_number(out, c, b"m", m);
    put_word(out, d, k, u, t)
}

// A word and four numbers.
fn put_point(out: &mut [u8], at: usize, name: &[u8], v: Point) -> usize
    ensures { Puts (out.old, at) (point_texts name.now v) (out.new, result) (length name.now + 85) }
{
    let a = text::put_bytes(out, at, name);
    let b = put_coordinate(out, a, v.a);
    let c = put_coordinate(out, b, v.b);
    let d = put_coordinate(out, c, v.c);
    let e = put_coordinate(out, d, v.d);
    text::put_byte(out, e, b'\n')
}

fn put_coordinate(out: &mut [u8], at: usize, z: i32) -> usize
    ensures { Puts (out.old, at) (coordinate_texts z) (out.new, result) 21 }
{
    let a = text::put_byte(out, at, b' ');
    text::put_signed(out, a, z as i64)
}

// `of U` or `of TUT`, and the word of that matrix, which has m T.
fn put_word(out: &mut [u8], at: usize, k: u8, u: Point, t: Point) -> usize
    ensures { Puts (out.old, at) (word_texts k u t) (out.new, result) 141 }
{
    let mut first = letters();
    let mut second = letters();
    let p = gate_words::spell_part(k, u, t, &mut first, &mut second);
    let a = put_name(out, at, p);
    let b = text::put_bytes(out, a, b"word ");
    let c = text_puts::put_word(out, b, gate_words::chosen(p, &first, &second));
    text::put_byte(out, c, b'\n')
}

fn put_name(out: &mut [u8], at: usize, p: Part) -> usize
    ensures { Puts (out.old, at) (name_text p.second ∷ []) (out.new, result) 7 }
{
    if p.second {
        text::put_bytes(out, at, b"of TUT\n")
    } else {
        text::put_bytes(out, at, b"of U\n")
    }
}

// Room for any word.
fn letters() -> [u8; 128]
    ensures { 128 ≡ length result }
{
    [0; 128]
}
