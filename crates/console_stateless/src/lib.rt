// The console's commands for numbers, points and operators (SPEC, "Console").
#![tactic(auto)]

mod elements;
mod entries;
mod operators;
mod pairs;

use console_replies::Line;
use text_words::Numbers;

// The answer to a command; its arguments begin at `from`, and the numbers of a hand-out are written to the front of `space`.
pub fn answer(c: usize, line: &[u8], from: usize, space: &mut [i32]) -> Line {
    if c == text_words::SIGN {
        return elements::sign(line, from);
    }
    let n = text_words::numbers_from(line, from);
    if !n.good {
        return Line::Bad;
    }
    match c {
        text_words::LINE => pairs::line(n, space),
        text_words::ENTRY => entries::entry(n, space),
        _ => numbered(c, n),
    }
}

fn numbered(c: usize, n: Numbers) -> Line {
    match c {
        text_words::OPERATOR | text_words::INVERSE | text_words::MATRIX | text_words::DETERMINANT =>
            { operators::operator(c, n) }
        text_words::APPLY => operators::apply(n),
        text_words::PRODUCT => operators::product(n),
        text_words::EXPONENT => elements::exponent(n),
        text_words::REAL | text_words::IMAGINARY | text_words::DIVIDE => elements::point(c, n),
        _ => elements::named(c, n),
    }
}
