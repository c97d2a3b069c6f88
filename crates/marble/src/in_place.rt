// "a claim is set and cleared in place, slot by slot"
pub use claims_in_place::{claim, release};

// Request P6: "The host lends its list of file records and asks how many aren't synced, then has them marked."
pub use marks_in_place::{sync, unsynced};
