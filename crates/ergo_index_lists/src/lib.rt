// What the exports on lists of spills share: the edition of the rows, as a flag names it.
#![tactic(auto)]

ghost use Rattle.std.specs.Prelude.{◌≡◌};
ghost use Rattle.ergo_index_lists.specs.Lists.{named_edition};

use index_types::RowEdition;

// The second edition where the flag is set, else the first.
pub fn named_edition(second: bool) -> RowEdition
    ensures { result ≡ named_edition second }
{
    if second {
        RowEdition::Two
    } else {
        RowEdition::One
    }
}
