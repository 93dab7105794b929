// Jonker-Volgenant linear assignment, from lapjv.rs: what a call answers. Its two halves are crates/lapjv_reduction and crates/lapjv_augmentation.
#![tactic(auto)]

ghost use Rattle.std.specs.Prelude.{◌≡◌};
ghost use Rattle.lapjv.specs.Answers.{refusal_number, verdict_of, Answered};

use lapjv_augmentation::assign;
pub use lapjv_definition::Counts;

// Why a call is refused.
#[derive(Clone, Copy, Debug, PartialEq, Eq)]
pub enum Refusal {
    NoSide,
    SideAbove255,
    WrongSize,
}

impl From<Refusal> for u32 {
    ghost from_gives = { λ why n. n ≡ refusal_number why };

    #[tactic(auto, unfolding(crate::specs::Answers::refusal_number))]
    fn from(why: Refusal) -> u32 {
        match why {
            Refusal::NoSide => 21,
            Refusal::SideAbove255 => 22,
            Refusal::WrongSize => 23,
        }
    }
}

// The three refusals in their order.
#[tactic(auto, unfolding(crate::specs::Answers::verdict_of))]
fn verdict_of(n: usize, costs: usize, rows: usize, cols: usize) -> Result<(), Refusal>
    ensures { result ≡ verdict_of n costs rows cols }
{
    if n == 0 {
        return Err(Refusal::NoSide);
    }
    if 255 < n {
        return Err(Refusal::SideAbove255);
    }
    if costs != n * n || rows != n || cols != n {
        return Err(Refusal::WrongSize);
    }
    Ok(())
}

// Pairs each of n rows with one of n columns, as lapjv.rs does: x gets the column of each row, and y the row of each column. `cost` has n rows of n costs.
// That no other pairing costs less is not claimed. A side of 0 or above 255, or a slice that is not of the side's size, is refused, and then x and y stay
// as they were.
pub fn lapjv(n: usize, cost: &[f64], x: &mut [usize], y: &mut [usize]) -> Result<Counts, Refusal>
    ensures { Answered n cost.now x.old y.old result x.new y.new }
{
    verdict_of(n, cost.len(), x.len(), y.len())?;
    Ok(assign(n, cost, x, y))
}
