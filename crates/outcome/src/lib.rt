// What one checking call answers.
#![tactic(auto)]

use oce_diag::Counted;
use oce_model::Refusal;

// How many errors and warnings the report holds; or the refusal, with its offset (the bytes needed for 9
// and 10).
pub type Answer = Result<Counted, Refusal>;
