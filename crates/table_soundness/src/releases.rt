// Which view is not one release.
ghost use Rattle.std.specs.Prelude.{◌↔◌, All, IfNone, IfSome, IsTrue};
ghost use Rattle.table_soundness.specs.Soundness.{IsFirstOther, IsOneRelease};

use store_state::View;

// Whether the application of the view is the one that its deployment lists.
fn is_one_release(view: &View) -> bool
    ensures { IsTrue result ↔ IsOneRelease view.now }
{
    if view.application.identity.key != view.deployment.app.key {
        return false;
    }
    if view.application.identity.version != view.deployment.app.version {
        return false;
    }
    true
}

/// The number of the first of these views whose application is not the one that its deployment lists, by its key and
/// its version. It takes no memory.
pub fn first_other_release(views: &[View]) -> Option<u64>
    ensures none { IfNone result (All IsOneRelease views.now) }
    ensures first { IfSome result (IsFirstOther views.now) }
{
    for view in views {
        if !is_one_release(view) {
            return Some(view.number);
        }
    }
    None
}
