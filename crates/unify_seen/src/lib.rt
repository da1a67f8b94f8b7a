// What the members of a cluster declare, by the marks of all of a kind: a detail that doesn't show in those
// of its kind has nothing to settle (FORMAT 16).
#![tactic(auto)]

ghost use Rattle.std.specs.Prelude.{◌≡◌, ◌&&◌, eqb, length};
ghost use Rattle.oce_model.specs.Model.{kind_number};
ghost use Rattle.unify_seen.specs.Seen.{TakenIn, Sees, shows};

use numbers::is_set;
use oce_model::{Attrs, Kind};
use unify::Detail;

// The marks of all Real members together, and those of all Integer members.
#[derive(Clone, Copy, PartialEq, Eq, Debug)]
pub struct Seen {
    real: u8,
    integer: u8,
}

// The marks `had` with those of one member more, if that is of the wanted kind.
fn take_in(had: u8, wanted: Kind, a: &Attrs) -> u8
    ensures { TakenIn (kind_number wanted) a.now.kind a.now.marks had result }
{
    if a.has_kind(wanted) {
        had | a.marks
    } else {
        had
    }
}

// What the members declare.
pub fn seen_in(slots: &[Attrs], members: &[usize]) -> Seen
    ensures { Sees slots.now members.now result.real result.integer (length members.now) }
{
    let mut real = 0;
    let mut integer = 0;
    for j in members {
        if let Some(a) = slots.get(*j) {
            real = take_in(real, Kind::Real, a);
            integer = take_in(integer, Kind::Integer, a);
        }
    }
    Seen { real, integer }
}

impl Seen {
    // Some member may declare a detail.
    pub fn shows(self, detail: Detail) -> bool
        ensures { result ≡ shows detail self.real self.integer }
    {
        let marks = match detail.kind() {
            Kind::Real => self.real,
            _ => self.integer,
        };
        is_set(usize::from(marks), detail.bit())
    }

    // No member declares anything.
    pub fn is_empty(self) -> bool
        ensures { result ≡ (eqb self.real 0 && eqb self.integer 0) }
    {
        self.real == 0 && self.integer == 0
    }
}
