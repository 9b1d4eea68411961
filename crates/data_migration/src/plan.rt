// Plans of single data files, and their order.
ghost use Rattle.std.specs.Prelude.{◌≡◌};
ghost use Rattle.std.specs.List.Sorted.{IsPermutation, IsSortedByKey};
ghost use Rattle.identity.specs.Printed.{text_cmp};
ghost use Rattle.data_migration.specs.Plans.{plan_name};

use small_types::Name;
use std::cmp::Ordering;

/// Where a data file of a new version comes from.
#[derive(Drop, Debug, PartialEq, Eq)]
pub enum LocalPlan {
    /// It has the bytes of the old version's data file `from`.
    Copy { from: Name, to: Name },
    /// It has the bytes that the new release deploys under its name.
    Fresh { name: Name },
}

impl LocalPlan {
    /// The name of the data file.
    pub fn name(&self) -> &Name
        ensures { result.now ≡ plan_name self.now }
    {
        match self {
            LocalPlan::Copy { to, .. } => to,
            LocalPlan::Fresh { name } => name,
        }
    }
}

// How the names of the data files compare.
fn plan_order(a: &LocalPlan, b: &LocalPlan) -> Ordering
    ensures { result ≡ text_cmp (plan_name a.now) (plan_name b.now) }
{
    a.name().cmp(b.name())
}

// Puts plans in order of the names of their data files.
pub(crate) fn sort_plans(plans: &mut Vec<LocalPlan>)
    ensures sorted { IsSortedByKey plan_name text_cmp plans.new.items }
    ensures same { IsPermutation plans.old.items plans.new.items }
{
    plans.sort_unstable_by(|a, b| plan_order(a, b));
}
