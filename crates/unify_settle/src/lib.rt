// One detail of rule 6 over the members of one cluster (FORMAT 16): what is declared, whether it all agrees, fill.
#![tactic(auto)]

ghost use Rattle.std.specs.Prelude.{◌≡◌, is_err};
ghost use Rattle.base.specs.Lists.{all};
ghost use Rattle.oce_model.specs.Model.{model_of};
ghost use Rattle.unify.specs.Slots.{slot, value, agree};
ghost use Rattle.unify.specs.Unify.{declarations, conflict, put_members, fill};
ghost use Rattle.unify_settle.specs.Settle.{FirstOf, member_agrees, agreed};

use image_records::Image;
use oce_model::Attrs;
use unify::Detail;
use unify_slots::{declared_at, put_at};

// Not all that is declared for a detail agrees.
#[derive(Clone, Copy, PartialEq, Eq, Debug)]
pub struct Conflict;

// The Rust's `AttrVal::same`: texts by bytes, ends by their 64 bits.
fn agrees(image: &Image, detail: Detail, u: u64, v: u64) -> bool
    ensures { result ≡ agree (model_of image.now).texts detail u v }
{
    if detail.is_text() {
        image.same_text(u as usize, v as usize)
    } else {
        u == v
    }
}

// A value that is declared first, and the members behind the one that declares it.
#[derive(Clone, Copy)]
struct First<'a> {
    value: u64,
    rest: &'a [usize],
}

// The first value that the members declare for a detail, if any of them does.
fn first_declared<'a>(slots: &[Attrs], members: &'a [usize], detail: Detail) -> Option<First<'a>>
    ensures { FirstOf detail slots.now members.now result }
{
    for (i, j) in members.iter().enumerate() {
        if let Some(value) = declared_at(slots, *j, detail) {
            return Some(First {
                value,
                rest: &members[i + 1..],
            });
        }
    }
    None
}

// What member j declares, if anything, agrees with v.
fn member_agrees(image: &Image, slots: &[Attrs], j: usize, detail: Detail, v: u64) -> bool
    ensures { result ≡ member_agrees (model_of image.now).texts detail v (value detail (slot slots.now j)) }
{
    match declared_at(slots, j, detail) {
        Some(u) => agrees(image, detail, v, u),
        None => true,
    }
}

// All that the members declare agrees with v. Inlined: clusters have few members, so that a call for each detail costs
// as much as its work.
#[inline(always)]
fn all_agree(image: &Image, slots: &[Attrs], members: &[usize], detail: Detail, v: u64) -> bool
    ensures { result ≡ all (agree (model_of image.now).texts detail v) (declarations detail slots.now members.now) }
{
    members
        .iter()
        .all(|j| member_agrees(image, slots, *j, detail, v))
}

// The first value that the members declare for a detail, if all that they declare agrees with it.
#[inline(always)]
fn agreed(
    image: &Image,
    slots: &[Attrs],
    members: &[usize],
    detail: Detail,
) -> Result<Option<u64>, Conflict>
    ensures { result ≡ agreed (model_of image.now).texts detail (declarations detail slots.now members.now) }
{
    match first_declared(slots, members, detail) {
        None => Ok(None),
        Some(first) => {
            if all_agree(image, slots, first.rest, detail, first.value) {
                Ok(Some(first.value))
            } else {
                Err(Conflict)
            }
        }
    }
}

// Each unset member takes v.
fn put_members(slots: &mut [Attrs], members: &[usize], detail: Detail, v: u64)
    ensures { slots.new ≡ put_members detail v members.now slots.old }
{
    for j in members {
        put_at(slots, *j, detail, v);
    }
}

// The Rust's `decide_and_apply`: one detail over the members of a cluster, which are filled if they agree.
pub fn decide_and_apply(
    image: &Image,
    slots: &mut [Attrs],
    members: &[usize],
    detail: Detail,
) -> Result<(), Conflict>
    ensures filled { slots.new ≡ fill (model_of image.now).texts members.now detail slots.old }
    ensures told { is_err result ≡ conflict (model_of image.now).texts detail (declarations detail slots.old members.now) }
{
    if let Some(v) = agreed(image, slots, members, detail)? {
        put_members(slots, members, detail, v);
    }
    Ok(())
}

// The members declare values for a detail that don't all agree: what `warn_display_unit_divergence` asks.
pub fn diverges(image: &Image, slots: &[Attrs], members: &[usize], detail: Detail) -> bool
    ensures { result ≡ conflict (model_of image.now).texts detail (declarations detail slots.now members.now) }
{
    agreed(image, slots, members, detail).is_err()
}
