// Rule 6, as rules/unify.rs has it: what it settles over a cluster.
#![tactic(auto)]

ghost use Rattle.std.specs.Prelude.{◌≡◌, ◌<◌};
ghost use Rattle.oce_model.specs.Model.{kind_number};
ghost use Rattle.unify.specs.Details.{detail_number, kind_of, bit_of, is_text};

use oce_model::{DISPLAY_UNIT_BIT, Kind, MAX_BIT, MIN_BIT, NUMBER_COUNT, QUANTITY_BIT, UNIT_BIT};

// The details 6.1 to 6.7, in their order. The Rust's `RealAttr` and `IntAttr`, and the display unit.
#[derive(Clone, Copy, PartialEq, Eq, Debug)]
pub enum Detail {
    Unit = 1,
    Quantity,
    RealMin,
    RealMax,
    IntegerMin,
    IntegerMax,
    DisplayUnit,
}

// How many are filled: 6.1 to 6.6.
pub const UNIFIED_COUNT: usize = 6;

// Those that are filled.
pub const UNIFIED: [Detail; UNIFIED_COUNT] = [
    Detail::Unit,
    Detail::Quantity,
    Detail::RealMin,
    Detail::RealMax,
    Detail::IntegerMin,
    Detail::IntegerMax,
];

impl Detail {
    // Its number in a report.
    #[tactic(auto, unfolding(crate::specs::Details::detail_number))]
    pub fn number(self) -> u8
        ensures { result ≡ detail_number self }
    {
        self as u8
    }

    // The kind that it is an attribute of.
    #[tactic(auto, unfolding(crate::specs::Details::kind_of))]
    pub fn kind(self) -> Kind
        ensures { kind_number result ≡ kind_of self }
    {
        match self {
            Detail::IntegerMin | Detail::IntegerMax => Kind::Integer,
            _ => Kind::Real,
        }
    }

    // The bit that marks it there.
    #[tactic(auto, unfolding(crate::specs::Details::bit_of))]
    pub fn bit(self) -> usize
        ensures marks { result ≡ bit_of self }
        ensures within { result < NUMBER_COUNT }
    {
        match self {
            Detail::Unit => UNIT_BIT,
            Detail::Quantity => QUANTITY_BIT,
            Detail::RealMin | Detail::IntegerMin => MIN_BIT,
            Detail::RealMax | Detail::IntegerMax => MAX_BIT,
            Detail::DisplayUnit => DISPLAY_UNIT_BIT,
        }
    }

    // Its values are texts.
    #[tactic(auto, unfolding(crate::specs::Details::is_text))]
    pub fn is_text(self) -> bool
        ensures { result ≡ is_text self }
    {
        matches!(self, Detail::Unit | Detail::Quantity | Detail::DisplayUnit)
    }
}
