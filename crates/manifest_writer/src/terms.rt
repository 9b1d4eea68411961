// The element `deployment`.
ghost use Rattle.std.specs.Prelude.{◌≡◌, [], ◌∷◌, ◌++◌, map, IfOk, OnOk};
ghost use Rattle.manifest_tree.specs.Tree.{tree_of};
ghost use Rattle.manifest_writer.specs.Deployments.{truth_text, terms_attributes, age_attributes, age_tree, before_tree, subscription_tree, rule_trees, provider_tree, provider_trees, terms_tree};

use crate::elements::{add_attribute, add_child, attributes, element, element_around};
use crate::fault::NoMemory;
use itoa::Buffer;
use manifest_tree::{Attribute, Node};
use manifests::{AgeUnit, Deployment, Rule};
use small_types::Text;
use std::alloc::Global;

fn truth(value: bool) -> &'static str
    ensures { result.now ≡ truth_text value }
{
    if value { "true" } else { "false" }
}

// Its attributes.
fn terms_attributes(alloc: Global, d: &Deployment) -> Result<Vec<Attribute>, NoMemory>
    ensures { IfOk result (λ made. made.items ≡ terms_attributes d.now) }
{
    let mut made = attributes(
        alloc,
        &[
            ("install", truth(d.install)),
            ("mapFileExtensions", truth(d.mapped)),
        ],
    )?;
    if let Some(minimum) = d.minimum {
        let version = minimum.print(alloc)?;
        add_attribute(alloc, &mut made, "minimumRequiredVersion", version.as_str())?;
    }
    Ok(made)
}

// How many of a unit.
fn age_attributes(alloc: Global, count: &str, unit: &str) -> Result<Vec<Attribute>, NoMemory>
    ensures { IfOk result (λ made. made.items ≡ age_attributes count.now unit.now) }
{
    attributes(alloc, &[("maximumAge", count), ("unit", unit)])
}

// An age in its unit.
#[tactic(auto, unfolding(crate::specs::Deployments::age_tree))]
fn age_node(alloc: Global, seconds: u64) -> Result<Node, NoMemory>
    ensures { IfOk result (λ made. tree_of made ≡ age_tree seconds) }
{
    let unit = AgeUnit::largest_of(seconds);
    let mut buffer = Buffer::new();
    let count = buffer.format(seconds / unit.seconds());
    let named = age_attributes(alloc, count, unit.word())?;
    element(alloc, "expiration", named, Vec::new(alloc))
}

// Before each start.
fn before_node(alloc: Global) -> Result<Node, NoMemory>
    ensures { IfOk result (λ made. tree_of made ≡ before_tree) }
{
    element(
        alloc,
        "beforeApplicationStartup",
        Vec::new(alloc),
        Vec::new(alloc),
    )
}

// Adds when a new version is looked for.
fn add_subscription(alloc: Global, children: &mut Vec<Node>, time: Node) -> Result<(), NoMemory>
    ensures { OnOk result (map tree_of children.new.items
        ≡ map tree_of children.old.items ++ subscription_tree (tree_of time) ∷ []) }
{
    let update = element_around(alloc, "update", time)?;
    add_child(children, element_around(alloc, "subscription", update)?)?;
    Ok(())
}

// Adds the rule.
fn add_rule(alloc: Global, children: &mut Vec<Node>, rule: Rule) -> Result<(), NoMemory>
    ensures { OnOk result
        (map tree_of children.new.items ≡ map tree_of children.old.items ++ rule_trees rule) }
{
    match rule {
        Rule::Never => {}
        Rule::Before => {
            let before = before_node(alloc)?;
            add_subscription(alloc, children, before)?;
        }
        Rule::Age { seconds } => {
            let age = age_node(alloc, seconds)?;
            add_subscription(alloc, children, age)?;
        }
    }
    Ok(())
}

// A provider.
fn provider_node(alloc: Global, address: &Text) -> Result<Node, NoMemory>
    ensures { IfOk result (λ made. tree_of made ≡ provider_tree address.now) }
{
    let named = attributes(alloc, &[("codebase", address.as_str())])?;
    element(alloc, "deploymentProvider", named, Vec::new(alloc))
}

// Adds the provider, where there is one.
fn add_provider(
    alloc: Global,
    children: &mut Vec<Node>,
    provider: &Option<Text>,
) -> Result<(), NoMemory>
    ensures { OnOk result (map tree_of children.new.items
        ≡ map tree_of children.old.items ++ provider_trees provider.now) }
{
    let Some(address) = provider else {
        return Ok(());
    };
    add_child(children, provider_node(alloc, address)?)?;
    Ok(())
}

// The element.
#[tactic(auto, unfolding(crate::specs::Deployments::terms_tree))]
pub(crate) fn terms_node(alloc: Global, d: &Deployment) -> Result<Node, NoMemory>
    ensures { IfOk result (λ made. tree_of made ≡ terms_tree d.now) }
{
    let named = terms_attributes(alloc, d)?;
    let mut children = Vec::new(alloc);
    add_rule(alloc, &mut children, d.rule)?;
    add_provider(alloc, &mut children, &d.provider)?;
    element(alloc, "deployment", named, children)
}
