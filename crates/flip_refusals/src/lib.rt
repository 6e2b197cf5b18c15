// Which refusals a spend and an unspend give, and what 15 means: laws; and the refusal of a search that took no entry.
#![tactic(auto)]

ghost use Rattle.std.specs.Prelude.{◌≡◌, cond};

// The refusal of a search that took no entry: by whether it saw the target.
pub fn no_entry(seen: bool) -> u8
    ensures { result ≡ cond seen 14 15 }
{
    if seen {
        refusal::NO_COPY_OF_THAT_SIGN
    } else {
        refusal::TARGET_NOT_SEEN
    }
}
