// The frame that trackbox works next, by the rules of its stream.
ghost use Rattle.std.specs.Prelude.{◌≡◌};
ghost use Rattle.why_question.specs.Due as Spec;

use trackbox_feed::{Feed, Item};
use trackbox_stream::{Fault, Next, OpenFrame, close, judge};

// A frame by its number, and how many boxes it has: the first so many of those held.
#[derive(Clone, Copy, Debug, PartialEq, Eq)]
pub struct Due {
    pub frame: u32,
    pub boxes: usize,
}

fn due_open(opened: OpenFrame) -> Option<Due>
    ensures { result ≡ Spec.due_open opened }
{
    if opened.frame == 0 {
        return None;
    }
    Some(Due {
        frame: opened.frame,
        boxes: opened.boxes,
    })
}

fn due_next(opened: OpenFrame, next: Result<Next, Fault>) -> Option<Due>
    ensures { result ≡ Spec.due_next opened next }
{
    match next {
        Ok(Next::Later(_, _)) => due_open(opened),
        Ok(Next::Same(_)) => None,
        Err(_) => None,
    }
}

fn due_end(opened: OpenFrame, ending: Result<(), Fault>) -> Option<Due>
    ensures { result ≡ Spec.due_end opened ending }
{
    match ending {
        Ok(()) => due_open(opened),
        Err(_) => None,
    }
}

// What a call of `take` with this item works, if it works a frame: the empty frames before the open one come first.
fn next_due(feed: Feed, item: Item) -> Option<Due>
    ensures { result ≡ Spec.due feed item }
{
    let opened = feed.opened;
    let empty = feed.empty;
    if 0 < empty {
        return Some(Due {
            frame: opened.frame.saturating_sub(empty),
            boxes: 0,
        });
    }
    match item {
        Item::Record(r) => due_next(opened, judge(opened, r.frame)),
        Item::End(rest) => due_end(opened, close(opened, rest)),
    }
}

// What is done with an item.
// Kept: three ways to go on, none of them a refusal.
#[derive(Clone, Copy, Debug, PartialEq, Eq)]
pub enum Move {
    // The frame asked about is due, with so many boxes.
    Explain(usize),
    // The file ends before it.
    Over,
    Pass,
}

// Of no frame that is asked about.
fn onward(feed: Feed, item: Item) -> Move
    ensures { result ≡ Spec.onward feed item }
{
    let Item::End(rest) = item else {
        return Move::Pass;
    };
    if (feed.empty == 0) & (rest == 0) {
        return Move::Over;
    }
    Move::Pass
}

pub fn decide(frame: u64, feed: Feed, item: Item) -> Move
    ensures { result ≡ Spec.decide frame feed item }
{
    let Some(due) = next_due(feed, item) else {
        return onward(feed, item);
    };
    if due.frame as u64 == frame {
        return Move::Explain(due.boxes);
    }
    onward(feed, item)
}
