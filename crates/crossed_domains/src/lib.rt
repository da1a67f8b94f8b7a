// Rule 5.4: the combined domains of boundary inputs, `check_combined_input_domains`. The members that take
// part, and whose bucket is crowded, are sorted by the bytes of their iris; a group is a run of neighbours
// with equal bytes. One pass keeps of the open group what a diagnostic needs.
#![tactic(auto)]

ghost use Rattle.std.specs.Prelude.{◌≡◌, ◌+◌, ◌<◌, ◌≤◌, length};
ghost use Rattle.numbers.specs.Bytes.{short_range};
ghost use Rattle.oce_model.specs.Format.{most_connectors, most_boundary_inputs};
ghost use Rattle.oce_model.specs.Model.{model_of};
ghost use Rattle.oce_diag.specs.Reporting.{Room, Puts};
ghost use Rattle.crossed_bounds.specs.CrossedBounds.{member_external, member_key, groups, groups_faults};
ghost use Rattle.crossed_members.specs.Members.{member_count, member_range, is_member};
ghost use Rattle.crossed_domains.specs.Runs.{runs};
ghost use Rattle.crossed_domains.specs.Pass.{opened, grown, is_reported, pass_faults, same_key, AllMembers, Stepped};

use crossed_bounds::Range;
use crossed_buckets::{Member, NO_MEMBER, collect_crowded};
use crossed_members::{member_count, member_external, member_iri, member_range, some_external};
use crossed_ranges::{is_crossed, take_in, uncrossed};
use crossed_sort::ByText;
use image_records::Image;
use oce_diag::{DiagCode, Report, Subject, error};
use oce_model::{MOST_BOUNDARY_INPUTS, MOST_CONNECTORS};
use structural_externals::Externals;

const RULE: u8 = 5;

const DOMAINS_DETAIL: u8 = 4;

// The most members that an image has: connectors and boundary inputs.
const ALL_MEMBERS: usize = MOST_CONNECTORS + MOST_BOUNDARY_INPUTS;

// So many have shorter arrays, which are sooner cleared.
const FEW_MEMBERS: usize = 256;

// The open group: its first member, how many it has, whether one is external, and what their ranges leave.
#[derive(Clone, Copy)]
pub struct Pass {
    pub first: usize,
    pub members: usize,
    pub external: bool,
    pub kept: Range,
}

// ---- the open group

impl Pass {
    // Of member x alone.
    fn of(externals: &Externals, x: usize) -> Pass
        requires { is_member (model_of externals.now) x }
        ensures { result ≡ opened x (member_external (model_of externals.now) x) (member_range (model_of externals.now) x) }
    {
        Pass {
            first: x,
            members: 1,
            external: member_external(externals, x),
            kept: uncrossed(member_range(externals.image(), x)),
        }
    }

    // With one member more.
    #[tactic(auto, unfolding(crate::specs::Pass::grown))]
    fn grow(self, external: bool, range: Range) -> Pass
        requires { self.members < short_range }
        ensures { result ≡ grown self external range }
    {
        Pass {
            members: self.members + 1,
            external: self.external || external,
            kept: take_in(self.kept, range),
            ..self
        }
    }

    // It is to be reported.
    #[tactic(auto, unfolding(crate::specs::Pass::is_reported))]
    fn is_reported(&self) -> bool
        ensures { result ≡ is_reported self.now }
    {
        self.external && 1 < self.members && is_crossed(self.kept)
    }

    // Reports it, where that is to be.
    fn close(&self, image: &Image, report: &mut Report)
        requires { is_member (model_of image.now) self.now.first × (self.now.members < short_range) × Room 1 report.old }
        ensures { Puts 1 (pass_faults (model_of image.now) self.now) report.old report.new }
    {
        let iri = member_iri(image, self.first);
        let place = self.members;
        let d = error(
            DiagCode::CrossedBounds,
            RULE,
            DOMAINS_DETAIL,
            Subject::Text(u32::from(iri)),
            place as u32,
        );
        report.put_if(self.is_reported(), d);
    }
}

// ---- one member more

// The iris of two members have the same bytes.
fn same_key(image: &Image, x: usize, y: usize) -> bool
    requires { is_member (model_of image.now) x × is_member (model_of image.now) y }
    ensures { result ≡ same_key (model_of image.now) x y }
{
    image.same_text(
        usize::from(member_iri(image, x)),
        usize::from(member_iri(image, y)),
    )
}

// Takes in member x.
fn step(externals: &Externals, p: Pass, x: usize, report: &mut Report) -> Pass
    requires { is_member (model_of externals.now) p.first × is_member (model_of externals.now) x × (p.members < short_range) × Room 1 report.old }
    ensures { Stepped (model_of externals.now) p x report.old report.new result }
{
    let image = externals.image();
    if same_key(image, p.first, x) {
        return p.grow(member_external(externals, x), member_range(image, x));
    }
    p.close(image, report);
    Pass::of(externals, x)
}

// ---- all members

// Reports the groups, the runs of equal iris in the sorted members.
fn report_groups(externals: &Externals, records: &[usize], report: &mut Report)
    requires { AllMembers (member_count (model_of externals.now)) records.now × (length records.now < short_range) × Room (length records.now) report.old }
    ensures { Puts (length records.now) (groups_faults (model_of externals.now) (runs (member_key (model_of externals.now)) records.now)) report.old report.new }
{
    let Some((first, rest)) = records.split_first() else {
        return;
    };
    let image = externals.image();
    let x = *first;
    let mut p = Pass::of(externals, x);
    for y in rest {
        p = step(externals, p, *y, report);
    }
    p.close(image, report);
}

// Finds the members of crowded buckets, sorts them by their iris, and reports their groups; each column has
// room for all members.
fn report_crowded(
    externals: &Externals,
    members: &mut [Member],
    records: &mut [usize],
    scratch: &mut [usize],
    report: &mut Report,
)
    requires { (length members.old ≡ member_count (model_of externals.now)) × (member_count (model_of externals.now) ≤ length records.old) × (member_count (model_of externals.now) ≤ length scratch.old) × (member_count (model_of externals.now) < short_range) × Room (member_count (model_of externals.now)) report.old }
    ensures { Puts (member_count (model_of externals.now)) (groups_faults (model_of externals.now) (groups (model_of externals.now))) report.old report.new }
{
    let crowd = collect_crowded(externals, members, records);
    let order = ByText {
        image: externals.image(),
        members: &*members,
    };
    order.sort(crowd, scratch);
    report_groups(externals, crowd, report);
}

// The same with columns of its own, for up to N members.
fn domains_in<const N: usize>(externals: &Externals, report: &mut Report)
    requires { (member_count (model_of externals.now) ≤ N) × (N ≤ most_connectors + most_boundary_inputs) × Room (member_count (model_of externals.now)) report.old }
    ensures { Puts (member_count (model_of externals.now)) (groups_faults (model_of externals.now) (groups (model_of externals.now))) report.old report.new }
{
    let mut members = [NO_MEMBER; N];
    let mut records = [0usize; N];
    let mut scratch = [0usize; N];
    let n = member_count(externals.image());
    report_crowded(
        externals,
        &mut members[..n],
        &mut records,
        &mut scratch,
        report,
    );
}

// Puts rule 5.4's diagnostics into the report. A group is reported only if a member is external, so where
// none is there is nothing to sort.
pub fn check_combined_input_domains(externals: &Externals, report: &mut Report)
    requires { Room (member_count (model_of externals.now)) report.old }
    ensures { Puts (member_count (model_of externals.now)) (groups_faults (model_of externals.now) (groups (model_of externals.now))) report.old report.new }
{
    if !some_external(externals) {
        return;
    }
    if member_count(externals.image()) <= FEW_MEMBERS {
        domains_in::<FEW_MEMBERS>(externals, report);
    } else {
        domains_in::<ALL_MEMBERS>(externals, report);
    }
}
