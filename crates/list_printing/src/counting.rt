// The number of solutions without their lines, for timing.
ghost use Rattle.std.specs.Prelude.{◌≡◌, length};
ghost use Rattle.session_stages.specs.Session.{meaning};
ghost use Rattle.integers_wide.specs.Meaning.{wrapped};
ghost use Rattle.list_pages.specs.Given.{left_of};
ghost use Rattle.list_printing.specs.Counting.{Counted};

use integers_wide::Size;
use list_pages::Page;
use session::{Answer, Session};

// The number of points that are left.
pub(crate) fn count(s: Session) -> Size
    ensures { result ≡ wrapped (left_of (meaning s)) }
{
    let mut left = s;
    let mut total = Size { hi: 0, lo: 0 };
    let mut more = true;
    // A while: each page says what is left after it.
    while more {
        let p = count_page(left);
        total = total.plus(p.count as u64);
        left = p.session;
        more = p.more;
    }
    total
}

// One hand-out of at most 4,096 points without its lines.
fn count_page(s: Session) -> Page
    ensures { Counted (meaning s) (meaning result.session) result.count result.more }
{
    let mut points = point_buffer();
    let o = session::hand_out(s, &mut points);
    let session = o.session;
    let a = o.answer;
    let Answer::Handed(count, end) = a else {
        return Page {
            session,
            count: 0,
            more: false,
            length: 0,
        };
    };
    Page {
        session,
        count,
        more: !end,
        length: 0,
    }
}

fn point_buffer() -> [i32; 16384]
    ensures { 16384 ≡ length result }
{
    [0; 16384]
}
