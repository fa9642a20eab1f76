// The line problem.
use console_replies::Line;
use line::{Answer, Place};
use record::Refusal;
use text_words::Numbers;

// `line NA LO HI NB LO HI LENGTH`, with or without a last pair.
pub fn line(n: Numbers, space: &mut [i32]) -> Line {
    if n.count == 7 {
        return line_from(n, Place::Beginning, space);
    }
    if n.count != 9 {
        return Line::Bad;
    }
    let Some(a) = integers::to_i32(n.values[7]) else {
        return Line::Bad;
    };
    let Some(b) = integers::to_i32(n.values[8]) else {
        return Line::Bad;
    };
    line_from(n, Place::After(a, b), space)
}

fn line_from(n: Numbers, place: Place, space: &mut [i32]) -> Line {
    let Some(first) = console_arguments::interval_at(&n.values, 0) else {
        return Line::Bad;
    };
    let Some(second) = console_arguments::interval_at(&n.values, 3) else {
        return Line::Bad;
    };
    let Some(l) = text_words::lent(n.values[6]) else {
        return Line::Bad;
    };
    let Some(lent) = space.get_mut(..l) else {
        return Line::Bad;
    };
    match line::pairs(first, second, place, lent) {
        Answer::Handed(count, ended) => Line::Good(console_replies::of_pairs(count, ended)),
        Answer::Refused => Line::Refused(Refusal::OutOfRange.number()),
    }
}
