// The symbols that wait for their equalised value, after `metas` and `last_at` of `Back` in chain/frame.rs.
#![tactic(auto)]

pub mod plain;
pub mod ranged;

use sync_heads::{SlotNumber, Word};

// What a waiting symbol comes out with.
#[derive(Clone, Copy)]
pub struct Meta {
    pub at: u64,
    pub j: u16,
    pub word: Word,
    pub slot: Option<SlotNumber>,
}

// Up to five waiting symbols, the oldest first; places behind them are not looked at.
// Five names and a count in the stead of a list: a rule of the project keeps no heap, and the definitions of crate frame_line (`moved`, `joined`) name these fields.
#[derive(Clone, Copy)]
pub struct Metas {
    pub count: u32,
    pub first: Meta,
    pub second: Meta,
    pub third: Meta,
    pub fourth: Meta,
    pub fifth: Meta,
}
