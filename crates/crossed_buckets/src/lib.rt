// Which members of the groups of rule 5.4 may be reported: those whose bucket, by the bytes of the iri, has
// several members and an external one.
#![tactic(auto)]

ghost use Rattle.std.specs.Prelude.{◌≡◌, ◌+◌, ◌%◌, ◌<◌, ◌≤◌, length};
ghost use Rattle.base.specs.Lists.{tab};
ghost use Rattle.numbers.specs.Bytes.{le32, le64};
ghost use Rattle.oce_model.specs.Model.{model_of};
ghost use Rattle.crossed_members.specs.Members.{member_count, is_member};
ghost use Rattle.crossed_buckets.specs.Buckets.{bucket_count, bucket_of, is_in_crowd, crowded, noted, collected, crowded_members, member_value, Noted};

use crossed_members::{member_external, member_iri, member_joins};
use image_records::Image;
use numbers::LittleEndian;
use structural_externals::Externals;

// How many buckets there are: a prime, so that each of the eight bytes tells.
const BUCKETS: usize = 1021;

// How many bytes tell the bucket of a text.
const TELLING_BYTES: usize = 8;

// How many numbers two bytes can hold, and how many four can.
const SHORT_RANGE: u32 = 65536;

const WORD_RANGE: u64 = 4294967296;

// What is known of a bucket's members.
#[derive(Clone, Copy)]
pub enum Known {
    Empty,
    OneInner,
    SeveralInner,
    OneExternal,
    Crowded,
}

// A member: the text number of its iri, and its bucket, if it takes part.
#[derive(Clone, Copy)]
pub struct Member {
    pub iri: u16,
    pub bucket: Option<u16>,
}

// What stands where no member was noted.
pub const NO_MEMBER: Member = Member {
    iri: 0,
    bucket: None,
};

// ---- one member

// The bucket of a number.
fn narrow(h: u64) -> u16
    ensures { (result ≡ h % bucket_count) × (result < bucket_count) }
{
    (h % BUCKETS as u64) as u16
}

// The number of the bytes from an index on, of which fewer than four are left.
fn read_few(t: &[u8], at: usize) -> u32
    requires { (at ≤ length t.now) × (length t.now < at + 4) }
    ensures { result ≡ le32 t.now at }
{
    let left = t.len() - at;
    if left == 0 {
        0
    } else if left == 1 {
        u32::from(u8::read(t, at))
    } else {
        let low = u32::from(u16::read(t, at));
        if left == 2 {
            low
        } else {
            low + SHORT_RANGE * u32::from(u8::read(t, at + 2))
        }
    }
}

// The number of a byte string of fewer than eight bytes, put together from its parts: `read_padded` would copy
// it, and load what was just stored in pieces.
fn read_short(t: &[u8]) -> u64
    requires { length t.now < 8 }
    ensures { result ≡ le64 t.now 0 }
{
    if t.len() < 4 {
        u64::from(read_few(t, 0))
    } else {
        u64::from(u32::read(t, 0)) + WORD_RANGE * u64::from(read_few(t, 4))
    }
}

// The bucket of a byte string, by its last eight bytes or all of fewer.
fn bucket_of(t: &[u8]) -> u16
    ensures { (result ≡ bucket_of t.now) × (result < bucket_count) }
{
    let n = t.len();
    if n < TELLING_BYTES {
        narrow(read_short(t))
    } else {
        narrow(u64::read(t, n - TELLING_BYTES))
    }
}

// Member x, as the column of members has it.
fn read_member(image: &Image, x: usize) -> Member
    requires { is_member (model_of image.now) x }
    ensures { result ≡ member_value (model_of image.now) x }
{
    let iri = member_iri(image, x);
    let bucket = if member_joins(image, x) {
        Some(bucket_of(image.text(usize::from(iri))))
    } else {
        None
    };
    Member { iri, bucket }
}

impl Known {
    // The same with one member more.
    #[tactic(auto, unfolding(crate::specs::Buckets::noted))]
    fn with_member(self, external: bool) -> Known
        ensures { result ≡ noted self external }
    {
        match (self, external) {
            (Known::Empty, true) => Known::OneExternal,
            (Known::Empty, false) => Known::OneInner,
            (Known::OneInner | Known::SeveralInner, false) => Known::SeveralInner,
            _ => Known::Crowded,
        }
    }

    // Several members, one of them external.
    fn is_crowded(self) -> bool
        ensures { result ≡ crowded self }
    {
        matches!(self, Known::Crowded)
    }
}

// ---- what is known of each bucket

// Member x, which its bucket has then, if it takes part.
fn note_one(externals: &Externals, x: usize, known: &mut [Known]) -> Member
    requires { is_member (model_of externals.now) x × Noted (model_of externals.now) x known.old }
    ensures { (result ≡ member_value (model_of externals.now) x) × Noted (model_of externals.now) (x + 1) known.new }
{
    let member = read_member(externals.image(), x);
    if let Some(b) = member.bucket {
        let b = usize::from(b);
        known[b] = known[b].with_member(member_external(externals, x));
    }
    member
}

// All members.
fn note_all(externals: &Externals, members: &mut [Member], known: &mut [Known])
    requires { (length members.old ≡ member_count (model_of externals.now)) × Noted (model_of externals.now) 0 known.old }
    ensures members { members.new ≡ tab (member_count (model_of externals.now)) (member_value (model_of externals.now)) }
    ensures known { Noted (model_of externals.now) (member_count (model_of externals.now)) known.new }
{
    for (x, member) in members.iter_mut().enumerate() {
        *member = note_one(externals, x, known);
    }
}

// ---- the members that may be reported

// The bucket of a member is crowded.
fn is_in_crowd(known: &[Known], member: Member) -> bool
    ensures { result ≡ is_in_crowd known.now member }
{
    member.bucket.is_some_and(|b| known.get(usize::from(b)).is_some_and(|k| k.is_crowded()))
}

// Those of the members whose bucket is crowded, at the front of records.
fn collect_known<'r>(
    members: &[Member],
    known: &[Known],
    records: &'r mut [usize],
) -> &'r mut [usize]
    requires { length members.now ≤ length records.old }
    ensures { result.now ≡ collected members.now known.now }
{
    let mut n = 0;
    for (x, member) in members.iter().enumerate() {
        if is_in_crowd(known, *member) {
            records[n] = x;
            n += 1;
        }
    }
    &mut records[..n]
}

// The members, in a column that has a place for each, and those whose bucket is crowded, at the front of
// records.
pub fn collect_crowded<'r>(
    externals: &Externals,
    members: &mut [Member],
    records: &'r mut [usize],
) -> &'r mut [usize]
    requires { (length members.old ≡ member_count (model_of externals.now)) × (member_count (model_of externals.now) ≤ length records.old) }
    ensures crowded { result.now ≡ crowded_members (model_of externals.now) (member_count (model_of externals.now)) }
    ensures members { members.new ≡ tab (member_count (model_of externals.now)) (member_value (model_of externals.now)) }
{
    let mut known = [Known::Empty; BUCKETS];
    note_all(externals, members, &mut known);
    collect_known(members, &known, records)
}
