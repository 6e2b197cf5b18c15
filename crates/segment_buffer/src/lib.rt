// The calls of the block applier and the rollback driver on one parent's segment: a head of boxes and a head of transactions, the staged spills, the
// segments table and the deleted spills, all borrowed. Every call takes the edition of the spill rows first, and tests refusal 25 of what it borrows
// before all else; a refusal changes nothing.
#![tactic(auto)]

// An edition of the spill rows.
pub use index_types::RowEdition;

// The number of a box and the number of a transaction; neither takes the other's place.
pub use index_types::{BoxNumber, TxNumber};

// ---- append

pub use append_calls::{append_box_entry, append_tx_entry};

// ---- pop

pub use index_types::{PoppedBox, PoppedTx};
pub use pop_calls::{pop_box_entry, pop_tx_entry};

// ---- spend, unspend and tally

pub use flip_calls::{flip_box_segment_entry, tally, unflip_box_segment_entry};

// ---- pages of unspent boxes

pub use page_calls::unspent_page;

// ---- flush

// Refusal 25 of the three lists.
pub use buffer_checks::lists_ok;
pub use flush_calls::flush_staged_spills;
