// Rule 8: neighbours in a route.
ghost use Rattle.std.specs.Prelude.{◌≡◌, take};
ghost use Rattle.document.specs.Reader.{repeat_at};

use model::Flow;

// The place of the first node that equals the one just before it, among the first n of a route; where there is none, how many these are.
// What stands in the array behind them is not looked at. Kept: no `Option`, since the definition `repeat_at` gives the length where there is none.
pub fn repeat_at(route: [u16; Flow::MOST_NODES], n: usize) -> usize
    ensures { result ≡ repeat_at (take n route) }
{
    let end = n.min(Flow::MOST_NODES);
    for i in 1..end {
        let before = i - 1;
        if route[i] == route[before] {
            return i;
        }
    }
    end
}
