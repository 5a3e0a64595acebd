// The cadence: how many packets it has, the label of a packet in it, and the packet's place in the M/H frame.
#![tactic(auto)]

ghost use Rattle.std.specs.Prelude.{◌≡◌};
ghost use Rattle.cadence.specs.Cadence.{length_of, row_of, column_of, is_mega_frame, admits};
ghost use Rattle.cadence.specs.Label.{label_of, pointer_of, in_cadence};
ghost use Rattle.wire.specs.Reply.{reply_of};
ghost use Rattle.cadence.specs.MobileFrame.{mobile_place};

use wire::Refusal;

// The packets of a mega-frame, 2016 × v × r, one number for 8K and 2K: twice the Reed-Solomon packets of a super-frame in 8K, eight times those in 2K
// (TS 101 191 clause 5; EN 300 744 subclause 4.7). Rows: QPSK, 16-QAM, 64-QAM. Columns: code rates 1/2, 2/3, 3/4, 5/6, 7/8.
const LENGTHS: [[u16; 5]; 3] = [
    [2016, 2688, 3024, 3360, 3528],
    [4032, 5376, 6048, 6720, 7056],
    [6048, 8064, 9072, 10080, 10584],
];

// The packets of a data frame (A/110 9.1.2.1).
const DATA_FRAME: u16 = 624;

// The constellations, in the order of the rows.
#[derive(Clone, Copy)]
pub enum Constellation {
    Qpsk,
    Qam16,
    Qam64,
}

impl Constellation {
    // Its row, the variant's own number from 0. A cast by `as` is proved to lose nothing, here and below: `try_from` would have an answer that never comes.
    fn row(self) -> usize
        ensures { result ≡ row_of self }
    {
        self as usize
    }
}

// The code rates, in the order of the columns.
#[derive(Clone, Copy)]
pub enum CodeRate {
    Half,
    TwoThirds,
    ThreeQuarters,
    FiveSixths,
    SevenEighths,
}

impl CodeRate {
    // Its column, likewise.
    fn column(self) -> usize
        ensures { result ≡ column_of self }
    {
        self as usize
    }
}

// The packets of a mega-frame with this constellation and this code rate.
pub fn length(c: Constellation, r: CodeRate) -> u16
    ensures { result ≡ length_of c r }
{
    LENGTHS[c.row()][r.column()]
}

// Whether n is the length of a mega-frame.
fn is_mega_frame(n: u16) -> bool
    ensures { result ≡ is_mega_frame n }
{
    LENGTHS.as_flattened().iter().any(|x| n == *x)
}

// Whether the profile has cadences of n packets. The profile is a number: C lends the slaves that have it, and any byte may stand there.
#[tactic(auto, unfolding(crate::specs::Cadence::admits))]
pub fn admits(profile: u8, n: u16) -> bool
    ensures { result ≡ admits profile n }
{
    match profile {
        0 => is_mega_frame(n),
        1 => n == DATA_FRAME,
        _ => false,
    }
}

// The label of the packet whose notice has this pointer.
pub fn label_of(n: u16, pointer: u16) -> Result<u16, Refusal>
    ensures { reply_of result ≡ in_cadence n pointer (label_of n pointer) }
{
    if pointer < n {
        Ok(n - 1 - pointer)
    } else {
        Err(Refusal::PointerOrIndex)
    }
}

// The pointer that a notice has at this label: the same map back, under the name that the documents have for it.
pub fn pointer_of(n: u16, label: u16) -> Result<u16, Refusal>
    ensures { reply_of result ≡ in_cadence n label (pointer_of n label) }
{
    label_of(n, label)
}

// The marks of an M/H frame, whose indexes are below it.
pub const FRAME_MARKS: u8 = 20;

// The M/H place of the packet p after mark i.
pub fn mobile_place(i: u8, p: u16) -> u16
    ensures { result ≡ mobile_place i p }
{
    ((37 + u32::from(DATA_FRAME) * u32::from(i) + u32::from(p)) % 12480) as u16
}
