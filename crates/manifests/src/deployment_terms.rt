// What the element `deployment` of a deployment manifest says.
ghost use Rattle.std.specs.Prelude.{◌≡◌, ◌≤◌, Ok, Some, IfOk, codes};
ghost use Rattle.manifest_tree.specs.Tree.{tree_of};
ghost use Rattle.manifest_parts.specs.Elements.{attribute as attribute_of};
ghost use Rattle.manifest_parts.specs.Outcome.{Gives};
ghost use Rattle.manifests.specs.Deployments.{minimum_of as minimum_in, unit_of as unit_in, age_of as age_in, update_rule as update_in, subscription_rule as subscription_in, rule_of as rule_in, address_of, provider_of as provider_in, terms_of as terms_in};

use crate::Rule;
use crate::ages::{AGE_DIGIT_LIMIT, AGE_LIMIT, DAY, HOUR, WEEK};
use crate::attributes::{needed_attribute, truth_attribute};
use addresses::{UrlFault, target_of};
use identity::Version;
use manifest_parts::{ManifestFault, attribute, bad_value, first_child, number, once, version};
use manifest_tree::Node;
use small_types::{Duplicate, Text};
use std::alloc::Global;

// What the element says.
#[derive(Drop)]
pub(crate) struct Terms {
    pub(crate) minimum: Option<Version>,
    pub(crate) mapped: bool,
    pub(crate) rule: Rule,
    pub(crate) provider: Option<Text>,
}

// The least version that may run, which is not above the version that is offered.
fn minimum_of(
    alloc: Global,
    offered: Version,
    deployment: &Node,
) -> Result<Option<Version>, ManifestFault>
    ensures { Gives (λ m. m) result
        (minimum_in offered
        (attribute_of (codes "minimumRequiredVersion") (tree_of deployment.now))) }
{
    let Some(text) = attribute(deployment, "minimumRequiredVersion") else {
        return Ok(None);
    };
    let minimum = version(alloc, "minimumRequiredVersion", text)?;
    if offered < minimum {
        return Err(ManifestFault::MinimumAboveVersion {
            minimum,
            version: offered,
        });
    }
    Ok(Some(minimum))
}

// The seconds of a unit of time.
fn unit_of(alloc: Global, text: &Text) -> Result<u64, ManifestFault>
    ensures exact { Gives (λ n. n) result (unit_in text.now) }
    ensures at_most_a_week { IfOk result (λ n. n ≤ WEEK) }
{
    let unit = text.as_str();
    if unit == "hours" {
        return Ok(HOUR);
    }
    if unit == "days" {
        return Ok(DAY);
    }
    if unit == "weeks" {
        return Ok(WEEK);
    }
    bad_value(alloc, "unit")
}

// The rule of an element `expiration`: its age of at most nine digits, in units.
fn age_of(alloc: Global, expiration: &Node) -> Result<Rule, ManifestFault>
    ensures { Gives (λ r. r) result (age_in (tree_of expiration.now)) }
{
    let digits = needed_attribute(alloc, expiration, "maximumAge")?;
    let age = number(alloc, AGE_DIGIT_LIMIT, AGE_LIMIT, "maximumAge", digits)?;
    let text = needed_attribute(alloc, expiration, "unit")?;
    let unit = unit_of(alloc, text)?;
    Ok(Rule::Age {
        seconds: age * unit,
    })
}

// The rule of an element `update`.
fn update_rule(alloc: Global, update: &Node) -> Result<Rule, ManifestFault>
    ensures { Gives (λ r. r) result (update_in (Some (tree_of update.now))) }
{
    if first_child(update, "beforeApplicationStartup").is_some() {
        return Ok(Rule::Before);
    }
    match first_child(update, "expiration") {
        Some(expiration) => age_of(alloc, expiration),
        None => Ok(Rule::Age { seconds: 0 }),
    }
}

// The rule of an element `subscription`.
fn subscription_rule(alloc: Global, subscription: &Node) -> Result<Rule, ManifestFault>
    ensures { Gives (λ r. r) result (subscription_in (Some (tree_of subscription.now))) }
{
    match first_child(subscription, "update") {
        Some(update) => update_rule(alloc, update),
        None => Ok(Rule::Never),
    }
}

// When a new version is looked for.
fn rule_of(alloc: Global, deployment: &Node) -> Result<Rule, ManifestFault>
    ensures { Gives (λ r. r) result (rule_in (tree_of deployment.now)) }
{
    match first_child(deployment, "subscription") {
        Some(subscription) => subscription_rule(alloc, subscription),
        None => Ok(Rule::Never),
    }
}

// A copy of the text, where it is an address.
fn kept_address(alloc: Global, text: &Text) -> Result<Option<Text>, ManifestFault>
    ensures { Gives (λ p. p) result (Ok (address_of (Some text.now))) }
{
    match target_of(alloc, text.as_bytes()) {
        Ok(_) => Ok(Some(text.copy(alloc)?)),
        Err(UrlFault::Memory) => Err(ManifestFault::Memory),
        Err(_) => Ok(None),
    }
}

// The address that updates come from; what is no address is passed over.
fn provider_of(alloc: Global, deployment: &Node) -> Result<Option<Text>, ManifestFault>
    ensures { Gives (λ p. p) result (Ok (provider_in (tree_of deployment.now))) }
{
    let Some(provider) = first_child(deployment, "deploymentProvider") else {
        return Ok(None);
    };
    let Some(codebase) = attribute(provider, "codebase") else {
        return Ok(None);
    };
    kept_address(alloc, codebase)
}

// What the root's one element `deployment` says, where that version is offered.
pub(crate) fn terms_of(alloc: Global, offered: Version, root: &Node) -> Result<Terms, ManifestFault>
    ensures { Gives (λ t. t) result (terms_in offered (tree_of root.now)) }
{
    let deployment = once(alloc, root, "deployment")?;
    let install = truth_attribute(alloc, deployment, "install", true)?;
    if !install {
        return Err(ManifestFault::OnlineOnly);
    }
    let mapped = truth_attribute(alloc, deployment, "mapFileExtensions", false)?;
    let minimum = minimum_of(alloc, offered, deployment)?;
    let rule = rule_of(alloc, deployment)?;
    let provider = provider_of(alloc, deployment)?;
    Ok(Terms {
        minimum,
        mapped,
        rule,
        provider,
    })
}
