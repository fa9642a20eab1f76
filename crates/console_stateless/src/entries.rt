// The other entry of a matrix.
use console_replies::Line;
use entry::Answer;
use record::Refusal;
use ring::Point;
use text_words::Numbers;

// `entry K A B C D LENGTH`, with or without a last point.
pub fn entry(n: Numbers, space: &mut [i32]) -> Line {
    if n.count == 6 {
        return entry_from(n, None, space);
    }
    if n.count != 10 {
        return Line::Bad;
    }
    let Some(p) = console_arguments::point_at(&n.values, 6) else {
        return Line::Bad;
    };
    entry_from(n, Some(p), space)
}

fn entry_from(n: Numbers, place: Option<Point>, space: &mut [i32]) -> Line {
    let Some((k, v)) = console_arguments::scaled_at(&n.values, 0) else {
        return Line::Bad;
    };
    let Some(l) = text_words::lent(n.values[5]) else {
        return Line::Bad;
    };
    let Some(lent) = space.get_mut(..l) else {
        return Line::Bad;
    };
    match entry::hand_out(k, v, place, lent) {
        Answer::Handed(count, ended) => Line::Good(console_replies::of_points(count, ended)),
        Answer::Refused => Line::Refused(Refusal::OutOfRange.number()),
    }
}
