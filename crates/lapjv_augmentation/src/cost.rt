// The reduced costs: the costs less the columns' prices.
ghost use Rattle.std.specs.Prelude.{◌≡◌, ◌<◌, length, get_or};
ghost use Rattle.std.specs.Float.{nan};
ghost use Rattle.lapjv_definition.specs.Cost.{at, ◌⊖◌};

use lapjv_reduction::cost::Costs;

// cost[i][j] - v[j]
pub(crate) fn reduced_cost(costs: Costs, v: &[f64], i: usize, j: usize) -> f64
    requires { (length v.now ≡ costs.side) × (i < costs.side) × (j < costs.side) }
    ensures { result ≡ at costs.entry.cells.now costs.entry.side i j ⊖ get_or v.now j nan }
{
    costs.at(i, j) - v[j]
}
