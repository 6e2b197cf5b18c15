// What a batch of real calls in bytes means, the journal of its accepted calls, and undoing them down to a mark. Definitions: `driver_batch` and `driver_rollback` meet them.
#![tactic(auto)]
