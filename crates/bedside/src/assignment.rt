// The assignment.
ghost use Rattle.bedside_answers.specs.Lapjv.{InC};

use bedside_answers::assignment::LapjvAnswer;

// Pairs each of n rows with one of n columns.
#[unsafe(no_mangle)]
pub extern "C" fn bedside_lapjv(
    n: usize,
    cost: &[f64],
    x: &mut [usize],
    y: &mut [usize],
) -> LapjvAnswer
    ensures { InC n cost.now x.old y.old result x.new y.new }
{
    LapjvAnswer::from(lapjv::lapjv(n, cost, x, y))
}
