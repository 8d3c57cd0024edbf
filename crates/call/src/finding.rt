// Taking an entry that is looked up out of its table.
ghost use Rattle.std.specs.Prelude.{◌≡◌, ◌≤◌, length};
ghost use Rattle.model.specs.Words.{without_first};

use model::lookup::{Keyed, index_of_first};
use order::table::Table;

// Takes out the first entry that has the key, if any.
#[tactic(auto, using(model::proofs::Words::without_found))]
pub(crate) fn drop_first<T: Keyed<K> + Copy, K, const N: usize>(table: &mut Table<T, N>, key: &K)
    ensures entries { table.new ≡ without_first (λ entry. T.has entry key.now) table.old }
    ensures shorter { length table.new ≤ length table.old }
{
    if let Some(index) = index_of_first(table.all(), key) {
        table.remove(index);
    }
}
