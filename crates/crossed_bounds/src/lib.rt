// Rule 5, as rules/crossed_bounds.rs has it.
#![tactic(auto)]

// An end of a Real range: none, or a binary64 number.
pub type End = Option<f64>;

// The Rust's `Bounds`: the ends of a Real range, or those of an Integer range after the defaults.
#[derive(Clone, Copy)]
pub enum Bounds {
    Real(End, End),
    Integer(i64, i64),
}

// The range of a set of attributes, where there is one.
pub type Range = Option<Bounds>;
