// One hand-out with its lines.
ghost use Rattle.std.specs.Prelude.{◌≡◌, false, ◌*◌, ◌/◌, ◌≤◌, min, length};
ghost use Rattle.session_stages.specs.Session.{meaning, scale_of};
ghost use Rattle.list_pages.specs.Page.{Paged, page_of, room_in};

use session::{Answer, Session, Stage};

// One hand-out: the session that it leaves, its count, whether more is to come, and the length of its lines.
#[derive(Clone, Copy)]
pub struct Page {
    pub session: Session,
    pub count: usize,
    pub more: bool,
    pub length: usize,
}

// One hand-out of at most 2,048 points, and its lines at the start of out.
pub fn next(s: Session, out: &mut [u8]) -> Page
    ensures { Paged (page_of (room_in (length out.old)) (meaning s)) result out.old out.new }
{
    let room = least(2048, out.len() / 70);
    let mut points = point_buffer();
    filled(s, &mut points[..4 * room], out)
}

fn point_buffer() -> [i32; 8192]
    ensures { 8192 ≡ length result }
{
    [0; 8192]
}

fn least(a: usize, b: usize) -> usize
    ensures { result ≡ min a b }
{
    if a < b { a } else { b }
}

// The same with the points lent; a line has at most 70 bytes.
fn filled(s: Session, points: &mut [i32], out: &mut [u8]) -> Page
    requires { 70 * (length points.old / 4) ≤ length out.old }
    ensures { Paged (page_of (length points.old / 4) (meaning s)) result out.old out.new }
{
    let o = session::hand_out(s, points);
    let a = o.answer;
    match a {
        Answer::Handed(n, end) => {
            let length = list_lines::put_points(out, points, n, scale(s));
            let session = o.session;
            Page {
                session,
                count: n,
                more: !end,
                length,
            }
        }
        Answer::Refused(_) => nothing(s),
        Answer::Taken(_) => nothing(s),
        Answer::Done => nothing(s),
        Answer::Says(_) => nothing(s),
        Answer::Least(_, _, _) => nothing(s),
    }
}

fn nothing(s: Session) -> Page
    ensures { (result.session ≡ s) × (result.count ≡ 0) × (result.more ≡ false) × (result.length ≡ 0) }
{
    Page {
        session: s,
        count: 0,
        more: false,
        length: 0,
    }
}

// The scale of a whole job.
fn scale(s: Session) -> u8
    ensures { result ≡ scale_of (meaning s) }
{
    let g = s.stage;
    match g {
        Stage::Early(_) => 0,
        Stage::Walking(c) => c.job.k,
    }
}
