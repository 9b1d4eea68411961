// What holds of every deployment and every application.
ghost use Rattle.manifests.specs.Facts.{ReadDeploymentsAreFacts, ReadApplicationsAreFacts};
ghost use Rattle.manifests.specs.FileLists.{ApplicationsHaveFiles};

/// An application has at most 16,384 files, of names that differ, and among them at most 256 data files.
pub fn applications_have_files()
    ensures { ApplicationsHaveFiles }
{}

/// What a deployment manifest says meets the conditions of what one can say. So it can be written again.
pub fn read_deployments_are_facts()
    ensures { ReadDeploymentsAreFacts }
{}

/// What an application manifest says meets the conditions of what one can say. So it can be written again.
pub fn read_applications_are_facts()
    ensures { ReadApplicationsAreFacts }
{}
