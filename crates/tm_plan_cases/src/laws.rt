// Laws over the definitions, each as the contract of a function that does nothing.
ghost use Rattle.tm_plan_cases.specs.Layout.{TablesStand};

use crate::cases::Cases;
use crate::masks::Masks;

/// The table of each case stands where its address says.
pub fn tables_stand(cases: &Cases, masks: &Masks)
    ensures { TablesStand cases.now masks.now }
{
    let _ = cases;
    let _ = masks;
}
