// Taking a node apart.
ghost use Rattle.std.specs.Prelude.{◌≡◌, ℕ};
ghost use Rattle.model.specs.Heap.{Occupied, Linked};
ghost use Rattle.model.specs.Moves.{Owed, Unlinked, Running, Apart};
ghost use Rattle.model.specs.Block.{heap, Shaped};
ghost use Rattle.block.specs.Outcome.{node_of};
ghost use Rattle.block.specs.Low.{Low};

use crate::ends::{clear, lower};
use crate::{Node, node_word, read};

// One reference fewer to n, which the call still has in its hands: nothing goes with it.
fn unlink(b: &mut [u32], n: u32)
    requires { Shaped b.old × Linked (heap b.old) × Owed (heap b.old) n }
    ensures { Shaped b.new × Unlinked (heap b.old) (heap b.new) n }
{
    if n != 0 {
        lower(b, n);
    }
}

// Node n as it was read. A node that the call made has no reference: it goes back at once, and `low` falls to it. One that stood at entry has, until the call ends.
pub fn take_apart(b: &mut [u32], low: &mut u32, n: u32) -> Node
    requires { (Running b.old × Occupied (heap b.old) n) × Low b.old low.old }
    ensures { (result ≡ node_of (heap b.old) n) × Apart b.old b.new n × Low b.new low.new }
{
    let node = read(b, n);
    if node_word(b, 5, n) == 0 {
        clear(b, n);
        unlink(b, node.left);
        unlink(b, node.right);
        // A test and not the lower of the two, which would store `low` at every node.
        let below = n < *low;
        if below {
            *low = n;
        }
    }
    node
}
