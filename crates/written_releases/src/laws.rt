// What is true of sessions that hear what the writer writes.
ghost use Rattle.written_releases.specs.Answered.{ChecksAreAnswered, InstallsAreAnswered, WrittenApplicationsTell, WrittenDeploymentsTell};
ghost use Rattle.written_releases.specs.TwoReleases.{TwoReleasesCome};

use machine::{some_stores_are_sound, steps_keep_sound};

/// A deployment and an application that may be held are told by the texts that the writer writes of
/// them, where these are not too long.
pub fn written_texts_tell()
    ensures deployments { WrittenDeploymentsTell }
    ensures applications { WrittenApplicationsTell }
{}

/// In each session over a store within its order and its limits, at each moment, an install that
/// hears both texts of a release is answered with its view, where the release may be installed in
/// that session, and its whole files are given.
pub fn installs_are_answered()
    ensures { InstallsAreAnswered }
{}

/// In each session, at each moment, a check that hears the text of a deployment is answered with
/// what it offers, where a version of that application is current.
pub fn checks_are_answered()
    ensures { ChecksAreAnswered }
{}

/// There is such a session: from an empty store a release is installed, a newer one over it, and a
/// check then offers a third one.
pub fn two_releases_come()
    ensures { TwoReleasesCome }
{
    some_stores_are_sound();
    steps_keep_sound();
}
