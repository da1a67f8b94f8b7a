// Ranges: when one is crossed, and what is left of several. `Bounds::of`, `Bounds::crossed`,
// `Bounds::intersect` and the `try_fold` of `check_combined_input_domains`.
#![tactic(auto)]

ghost use Rattle.std.specs.Prelude.{◌≡◌};
ghost use Rattle.crossed_bounds.specs.Ranges.{crossed_ends, crossed_bounds, crossed, higher, lower, intersect, uncrossed, take_in, range_of};
ghost use Rattle.oce_model.specs.Model.{model_of};
ghost use Rattle.crossed_ranges.specs.Read.{real_read, integer_read};

use crossed_bounds::{Bounds, End, Range};
use image_records::Image;
use numbers::{is_finite, is_set};
use oce_model::{Attrs, IntAttrs, Kind, MAX_BIT, MIN_BIT, RealAttrs};

// ---- crossed: min is above max, by number

// Two ends of a Real range; one that isn't set crosses nothing.
#[tactic(auto, unfolding(crossed_bounds::specs::Ranges::crossed_ends))]
fn ends_crossed(lo: End, hi: End) -> bool
    ensures { result ≡ crossed_ends lo hi }
{
    match (lo, hi) {
        (Some(a), Some(b)) => b < a,
        _ => false,
    }
}

// A range of either kind.
#[tactic(auto, unfolding(crossed_bounds::specs::Ranges::crossed_bounds))]
fn bounds_crossed(b: Bounds) -> bool
    ensures { result ≡ crossed_bounds b }
{
    match b {
        Bounds::Real(lo, hi) => ends_crossed(lo, hi),
        Bounds::Integer(lo, hi) => hi < lo,
    }
}

// There is a range, and it is crossed.
#[tactic(auto, unfolding(crossed_bounds::specs::Ranges::crossed))]
pub fn is_crossed(r: Range) -> bool
    ensures { result ≡ crossed r }
{
    r.is_some_and(bounds_crossed)
}

// ---- what is left of several ranges

// Of two Real mins the tighter one, of two equal ones the first.
#[tactic(auto, unfolding(crossed_bounds::specs::Ranges::higher))]
fn higher_end(x: End, y: End) -> End
    ensures { result ≡ higher x y }
{
    match (x, y) {
        (Some(a), Some(b)) => Some(if a < b { b } else { a }),
        _ => x.or(y),
    }
}

// Of two Real maxes likewise.
#[tactic(auto, unfolding(crossed_bounds::specs::Ranges::lower))]
fn lower_end(x: End, y: End) -> End
    ensures { result ≡ lower x y }
{
    match (x, y) {
        (Some(a), Some(b)) => Some(if b < a { b } else { a }),
        _ => x.or(y),
    }
}

// The intersection of two ranges of one kind; two kinds have none.
#[tactic(auto, unfolding(crossed_bounds::specs::Ranges::intersect, crossed_bounds::specs::Ranges::higher_integer, crossed_bounds::specs::Ranges::lower_integer))]
pub fn intersect(x: Bounds, y: Bounds) -> Range
    ensures { result ≡ intersect x y }
{
    match (x, y) {
        (Bounds::Real(a, b), Bounds::Real(c, d)) => {
            Some(Bounds::Real(higher_end(a, c), lower_end(b, d)))
        }
        (Bounds::Integer(a, b), Bounds::Integer(c, d)) => {
            Some(Bounds::Integer(a.max(c), b.min(d)))
        }
        _ => None,
    }
}

// A crossed range doesn't count.
#[tactic(auto, unfolding(crossed_bounds::specs::Ranges::uncrossed))]
pub fn uncrossed(r: Range) -> Range
    ensures { result ≡ uncrossed r }
{
    r.filter(|b| !bounds_crossed(*b))
}

// What is kept of the members before, and one member more.
#[tactic(auto, unfolding(crossed_bounds::specs::Ranges::take_in))]
pub fn take_in(kept: Range, r: Range) -> Range
    ensures { result ≡ take_in kept r }
{
    intersect(kept?, uncrossed(r)?)
}

// ---- the range of attributes: the Rust's `Bounds::of`

// The range of Real attributes; with an end that isn't finite there is none.
#[tactic(auto, unfolding(crate::specs::Read::real_read))]
pub fn real_range(a: RealAttrs) -> Range
    ensures { result ≡ real_read a }
{
    let min = is_set(a.marks, MIN_BIT).then_some(a.min);
    let max = is_set(a.marks, MAX_BIT).then_some(a.max);
    (min.is_none_or(is_finite) && max.is_none_or(is_finite)).then_some(Bounds::Real(min, max))
}

// The range of Integer attributes; min and max stand for an end that isn't set.
#[tactic(auto, unfolding(crate::specs::Read::integer_read))]
pub fn integer_range(a: IntAttrs, min: i64, max: i64) -> Range
    ensures { result ≡ integer_read a min max }
{
    Some(Bounds::Integer(a.min.unwrap_or(min), a.max.unwrap_or(max)))
}

// The range of attributes, by the defaults of the image's head; `None` where they have none.
#[tactic(auto, unfolding(crossed_bounds::specs::Ranges::range_of))]
pub fn range_of(image: &Image, a: &Attrs) -> Range
    ensures { result ≡ range_of (model_of image.now).defaults a.now }
{
    if a.has_kind(Kind::Real) {
        real_range(a.real())
    } else if a.has_kind(Kind::Integer) {
        let layout = image.layout();
        integer_range(a.integer(), layout.min, layout.max)
    } else {
        None
    }
}
