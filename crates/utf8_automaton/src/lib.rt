// Whether bytes are UTF-8, by an automaton: a step for each byte, and no branch that hangs on what the byte is. So short texts of mixed scripts are
// read soonest; `utf8::scan` is sooner where the same kind of character comes again and again, and counts them.
#![tactic(auto)]

ghost use Rattle.std.specs.Prelude.{◌≡◌};
ghost use Rattle.utf8.specs.Utf8.{decode};
ghost use Rattle.utf8_automaton.specs.WellFormed.{is_points};

// The states, each the place of six bits of a `u64`; at 0, which has none, bytes are not UTF-8. At this one a character starts.
const CHAR: u64 = 6;

// One, two and three bytes are due, of 80 to BF.
const ONE: u64 = 12;

const TWO: u64 = 18;

const THREE: u64 = 24;

// After these lead bytes: A0 to BF and another, 80 to 9F and another, 90 to BF and two others, 80 to 8F and two others.
const E0: u64 = 30;

const ED: u64 = 36;

const F0: u64 = 42;

const F4: u64 = 48;

// What a byte makes of the states: at the place of each, the next. So an ASCII character ends where it starts.
const A: u64 = CHAR << CHAR;

// Later bytes: 80 to 8F, 90 to 9F, and A0 to BF.
const LATER: u64 = (CHAR << ONE) | (ONE << TWO) | (TWO << THREE);

const L: u64 = LATER | (ONE << ED) | (TWO << F4);

const M: u64 = LATER | (ONE << ED) | (TWO << F0);

const H: u64 = LATER | (ONE << E0) | (TWO << F0);

// Lead bytes of two, three and four bytes, and those after which fewer may come second.
const D: u64 = ONE << CHAR;

const T: u64 = TWO << CHAR;

const Q: u64 = THREE << CHAR;

const U: u64 = E0 << CHAR;

const V: u64 = ED << CHAR;

const W: u64 = F0 << CHAR;

const X: u64 = F4 << CHAR;

// Bytes that no text has.
const O: u64 = 0;

// For each byte, 16 in a line.
#[rattlefmt::skip]
static STEPS: [u64; 256] = [
    A, A, A, A, A, A, A, A, A, A, A, A, A, A, A, A,
    A, A, A, A, A, A, A, A, A, A, A, A, A, A, A, A,
    A, A, A, A, A, A, A, A, A, A, A, A, A, A, A, A,
    A, A, A, A, A, A, A, A, A, A, A, A, A, A, A, A,
    A, A, A, A, A, A, A, A, A, A, A, A, A, A, A, A,
    A, A, A, A, A, A, A, A, A, A, A, A, A, A, A, A,
    A, A, A, A, A, A, A, A, A, A, A, A, A, A, A, A,
    A, A, A, A, A, A, A, A, A, A, A, A, A, A, A, A,
    L, L, L, L, L, L, L, L, L, L, L, L, L, L, L, L,
    M, M, M, M, M, M, M, M, M, M, M, M, M, M, M, M,
    H, H, H, H, H, H, H, H, H, H, H, H, H, H, H, H,
    H, H, H, H, H, H, H, H, H, H, H, H, H, H, H, H,
    O, O, D, D, D, D, D, D, D, D, D, D, D, D, D, D,
    D, D, D, D, D, D, D, D, D, D, D, D, D, D, D, D,
    U, T, T, T, T, T, T, T, T, T, T, T, T, V, T, T,
    W, Q, Q, Q, X, O, O, O, O, O, O, O, O, O, O, O,
];

pub fn is_utf8(bytes: &[u8]) -> bool
    ensures { result ≡ is_points (decode bytes.now) }
{
    let mut state = CHAR;
    for byte in bytes {
        state = STEPS[*byte as usize] >> (state & 63);
    }
    state & 63 == CHAR
}
