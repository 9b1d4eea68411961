// Which options can be published.
ghost use Rattle.std.specs.Prelude.{◌↔◌, All, IsTrue, IfOk};
ghost use Rattle.publish_plan.specs.declared.options.Mark.{Mark};
ghost use Rattle.publisher.specs.Options.{IsKind, IsPublishable};

use manifests::{is_provider, is_rule, is_value};
use publish_plan::{Mark, MarkKind, Options};
use small_types::CopyFault;
use small_types::limits::NAME_LIMIT;
use std::alloc::Global;

// Whether the mark's group, if it has one, can be written.
fn is_kind(kind: &MarkKind) -> bool
    ensures { IsTrue result ↔ IsKind kind.now }
{
    match kind {
        MarkKind::Local => true,
        MarkKind::Group(group) => is_value(group, 1, NAME_LIMIT),
    }
}

// Whether the group of each mark can be written.
fn are_kinds(marks: &[Mark]) -> bool
    ensures { IsTrue result ↔ All (λ (mark : Mark). IsKind mark.kind) marks.now }
{
    marks.iter().all(|mark| is_kind(&mark.kind))
}

/// Whether `publish` takes the options: the publisher has at most 240 bytes and each group 1 to
/// 240, no byte of a text is below 32 but tab, line feed and carriage return, an age is of whole
/// hours and takes at most nine digits in its unit, and the provider is an address. It fails only
/// for want of memory.
pub fn is_publishable(alloc: Global, options: &Options) -> Result<bool, CopyFault>
    ensures { IfOk result (λ answer. IsTrue answer ↔ IsPublishable options.now) }
{
    if !is_value(&options.publisher, 0, NAME_LIMIT) || !is_rule(options.rule) {
        return Ok(false);
    }
    if !are_kinds(options.marks.as_slice()) {
        return Ok(false);
    }
    is_provider(alloc, &options.provider)
}
