// The bench's session and its answers as plain numbers, for callers that are not Rattle: every value of `State` is some session (specs/Numbers), so that nothing is undefined,
// whatever a caller hands in. All zeros are the fresh session.
#![tactic(auto)]

mod answers;
mod back;
mod forth;
mod tallies;

pub use answers::{leaving, reply_of, told};
pub use back::{is_set, operator_of, point_of, region_of, session_of, spot_of};
pub use forth::{Place, eight_of, flag, four_of, shape_of, spotted, state_of};
pub use tallies::counts_of;

// A point.
#[repr(C)]
#[derive(Clone, Copy)]
pub struct Four {
    pub a: i32,
    pub b: i32,
    pub c: i32,
    pub d: i32,
}

impl Four {
    // What stands where there is no point.
    pub const NONE: Four = Four {
        a: 0,
        b: 0,
        c: 0,
        d: 0,
    };
}

// An operator.
#[repr(C)]
#[derive(Clone, Copy)]
pub struct Eight {
    pub a: i16,
    pub b: i16,
    pub c: i16,
    pub d: i16,
    pub ai: i16,
    pub bi: i16,
    pub ci: i16,
    pub di: i16,
}

impl Eight {
    // What stands where there is no operator.
    pub const NONE: Eight = Eight {
        a: 0,
        b: 0,
        c: 0,
        d: 0,
        ai: 0,
        bi: 0,
        ci: 0,
        di: 0,
    };
}

// A region. Kind 2 is a rectangle, 3 an ellipse, any other a slice; the fields of the other two do not count.
#[repr(C)]
#[derive(Clone, Copy)]
pub struct Shape {
    pub kind: u8,
    pub n: u16,
    pub xl: i32,
    pub xh: i32,
    pub yl: i32,
    pub yh: i32,
    pub cx: i32,
    pub cy: i32,
    pub p: u16,
    pub q: i16,
    pub r: u16,
    pub s: u32,
    pub zx: i16,
    pub zy: i16,
    pub w: i32,
}

impl Shape {
    // What stands where there is no region.
    pub const NONE: Shape = Shape {
        kind: 0,
        n: 0,
        xl: 0,
        xh: 0,
        yl: 0,
        yh: 0,
        cx: 0,
        cy: 0,
        p: 0,
        q: 0,
        r: 0,
        s: 0,
        zx: 0,
        zy: 0,
        w: 0,
    };
}

// hi·2^64 + lo.
#[repr(C)]
#[derive(Clone, Copy)]
pub struct Count {
    pub hi: u64,
    pub lo: u64,
}

// A count for each exponent from 0 to 20.
#[repr(C)]
#[derive(Clone, Copy)]
pub struct Counts {
    pub counts: [Count; 21],
}

// A session. Stage 1 has the scale, 2 the selection too, 3 region A too, 4 the whole job; any other has read nothing.
#[repr(C)]
#[derive(Clone, Copy)]
pub struct State {
    pub stage: u8,
    pub k: u8,
    pub all: u8,
    pub ended: u8,
    pub a: Shape,
    pub b: Shape,
    pub spot: Four,
    pub operator: Eight,
    pub tally: Counts,
}

// An answer. Kind 1 is a reading's count of bytes, 2 a hand-out's count and whether the end is reached, 3 done, 4 yes or no, 5 a pattern, any other a refusal by its number.
#[repr(C)]
#[derive(Clone, Copy)]
pub struct Reply {
    pub kind: u8,
    pub number: u8,
    pub flag: u8,
    pub scale: u8,
    pub count: usize,
    pub u: Four,
    pub t: Four,
}

// The session that a call leaves, and its answer.
#[repr(C)]
#[derive(Clone, Copy)]
pub struct Left {
    pub session: State,
    pub reply: Reply,
}
