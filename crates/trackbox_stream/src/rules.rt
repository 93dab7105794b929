// One record at a time: what its frame number means behind those before it, and what the end of the input means.
ghost use Rattle.std.specs.Prelude.{◌≡◌};
ghost use Rattle.trackbox_stream.specs.Rules as Rules;

// What is known between two records.
#[derive(Clone, Copy, Debug, PartialEq, Eq)]
pub struct OpenFrame {
    // records so far
    pub records: u64,
    // the open frame's number, 0 before the first record
    pub frame: u32,
    // its first record, counted from 1
    pub first: u64,
    // how many boxes it has
    pub boxes: usize,
}

// Why a stream is turned down: document 01's 41 to 44.
#[derive(Clone, Copy, Debug, PartialEq, Eq)]
pub enum Refusal {
    // 41
    RecordIncomplete,
    // 42: a frame number of 0, or below the previous record's
    FrameBack,
    // 43: more than 1000 above it
    FrameFar,
    // 44: a 65th box in a frame
    TooManyBoxes,
}

impl From<Refusal> for u64 {
    ghost from_gives = { λ why n. n ≡ Rules.number why };

    fn from(why: Refusal) -> u64 {
        match why {
            Refusal::RecordIncomplete => 41,
            Refusal::FrameBack => 42,
            Refusal::FrameFar => 43,
            Refusal::TooManyBoxes => 44,
        }
    }
}

// A refusal, and the record that it names, counted from 1.
#[derive(Clone, Copy, Debug, PartialEq, Eq)]
pub struct Fault {
    pub why: Refusal,
    pub nth: u64,
}

// What a record that passes means.
// Kept: either kind passes, so neither is an error of the other.
#[derive(Clone, Copy, Debug, PartialEq, Eq)]
pub enum Next {
    // The record is the open frame's, and this is known with it.
    Same(OpenFrame),
    // The record is a later frame's: the open frame is worked, if there is one, then so many empty frames, and this is known with the new frame open.
    Later(u32, OpenFrame),
}

pub fn start() -> OpenFrame
    ensures { result ≡ Rules.start }
{
    OpenFrame {
        records: 0,
        frame: 0,
        first: 1,
        boxes: 0,
    }
}

// The number of the record behind so many; the largest u64, which no stream comes to, stays.
fn nth_after(records: u64) -> u64
    ensures { result ≡ Rules.nth_after records }
{
    records.saturating_add(1)
}

// What a record of this frame number means.
pub fn judge(state: OpenFrame, frame: u32) -> Result<Next, Fault>
    ensures { result ≡ Rules.judged state (Rules.nth_after state.records) frame }
{
    let nth = nth_after(state.records);
    let previous = state.frame;
    let boxes = state.boxes;
    if (frame == 0) | (frame < previous) {
        return Err(Fault {
            why: Refusal::FrameBack,
            nth,
        });
    }
    if 1000 < frame - previous {
        return Err(Fault {
            why: Refusal::FrameFar,
            nth,
        });
    }
    if previous < frame {
        return Ok(Next::Later(frame - previous - 1, opened(nth, frame)));
    }
    if 64 <= boxes {
        return Err(Fault {
            why: Refusal::TooManyBoxes,
            nth,
        });
    }
    Ok(Next::Same(more(state, nth, boxes + 1)))
}

// A frame with its first record.
fn opened(nth: u64, frame: u32) -> OpenFrame
    ensures { result ≡ Rules.opened nth frame }
{
    OpenFrame {
        records: nth,
        frame,
        first: nth,
        boxes: 1,
    }
}

// The open frame with one more record.
fn more(state: OpenFrame, nth: u64, boxes: usize) -> OpenFrame
    ensures { result ≡ Rules.grown state nth boxes }
{
    OpenFrame {
        records: nth,
        boxes,
        ..state
    }
}

// What the end of the input means where so many bytes are left behind the whole records.
pub fn close(state: OpenFrame, rest: usize) -> Result<(), Fault>
    ensures { result ≡ Rules.closed (Rules.nth_after state.records) rest }
{
    let nth = nth_after(state.records);
    if 0 < rest {
        return Err(Fault {
            why: Refusal::RecordIncomplete,
            nth,
        });
    }
    Ok(())
}
