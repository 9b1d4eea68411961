// The written names that do not depend on a file.
ghost use Rattle.std.specs.Prelude.{◌≡◌, None, IfOk, IfErr};
ghost use Rattle.publish_plan.specs.Early.{early_of};
ghost use Rattle.publish_plan.specs.Written.{AreWritten};

use crate::places::{front_of, manifest_name, version_folder};
use crate::{Options, PlanFault};
use std::alloc::{AllocError, Global};

/// The written names that do not depend on a file.
#[derive(Drop)]
pub(crate) struct Written {
    /// With what the names in the folder that is published begin.
    pub(crate) front: String,
    /// The folder of the version.
    pub(crate) folder: String,
    /// The name that the application manifest is written under.
    pub(crate) manifest: String,
}

impl Written {
    /// Those of these options. It fails only for want of memory.
    pub(crate) fn new(alloc: Global, options: &Options) -> Result<Written, AllocError>
        requires { early_of options.now ≡ None }
        ensures { IfOk result (AreWritten options.now) }
    {
        let front = front_of(alloc, options.from.as_str())?;
        let folder = version_folder(alloc, options)?;
        let manifest = manifest_name(alloc, folder.as_str(), &options.entry)?;
        Ok(Written {
            front,
            folder,
            manifest,
        })
    }
}
