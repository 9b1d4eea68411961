// What holds of every plan.
ghost use Rattle.std.specs.Prelude.{◌≡◌};
ghost use Rattle.publish_plan.specs.Facts.{PlansHaveFacts};

use crate::PLAIN_NAME_LIMIT;

/// The most bytes of the name that is published, and of that of the file that is started.
pub fn plain_name_limit_is()
    ensures { PLAIN_NAME_LIMIT ≡ 100 }
{}

/// A plan has at most 16,384 files and at most 256 data files, each of which an application manifest can list, and the
/// file that is started among them. All but the deployment manifest is written in the folder of the version, where
/// nothing stands and nothing is read, and where the names that stand differ, so do those that are written.
pub fn plans_have_facts()
    ensures { PlansHaveFacts }
{}
